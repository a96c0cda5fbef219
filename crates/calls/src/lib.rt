// The calls as a host has them: an answer is a number and a few words for its values, and a vCPU's number is a u32. Each is a function on the
// session by value; `host` has them over a session behind a pointer.
#![tactic(auto)]

ghost use Rattle.std.specs.Prelude.{◌≡◌, min, []};
ghost use Rattle.kvmi.specs.Answer.{paper};
ghost use Rattle.kvmi.specs.Settings.{is_set};
ghost use Rattle.session.specs.Calls.{told};
ghost use Rattle.session.specs.State.{state};
ghost use Rattle.message.specs.Moves.{message_move, session_after};
ghost use Rattle.vcpu_list.specs.List.{one, one_ready, one_cr};
ghost use Rattle.calls.specs.Given.{resumed, result_words, given, fresh_given, ready_given, message_given, enter_given, size_given, write_given, read_given, one_given};

use kvmi::{Answer, Resumption, Signal, Source};
use message::After;
use page_words::PageWords;
use session::Session;
use store::words::VcpuWords;
use vcpu_list::Vcpu;

// How many words are lent for an answer's values: its eleven, and one that is 0.
pub const RESULT_WORDS: usize = 12;

pub type ResultWords = [u64; RESULT_WORDS];

// What a call gives: the answer's number, which is what the exported function returns, and the session after it.
#[derive(Clone, Copy)]
pub struct Returned {
    pub code: u32,
    pub session: Session,
}

// What a message gives: the answer's number, and what it moved of the session.
#[derive(Clone, Copy)]
pub struct Received {
    pub code: u32,
    pub after: After,
}

// ---- an answer as numbers

// How a vCPU goes on, into words 5 to 9, which are the same in the result of a call and of a batch. Words 7 to 9 stay as they are where the bytes are those
// of a page that is missing.
pub fn put_resumption(res: &mut ResultWords, resumption: Resumption)
    ensures { res.new ≡ resumed res.old resumption }
{
    let feed = resumption.feed;
    res[5] = resumption.action as u64;
    res[6] = resumption.value;
    if !matches!(feed.source, Source::Missing) {
        res[7] = feed.source as u64;
        res[8] = feed.at;
        res[9] = feed.length as u64;
    }
}

// An answer's values, into the words lent for them; its number is given back. The numbers are written here, as in `stream::answer_number`: by a call of
// that function a small command takes 8 instructions more, and an entry 50.
fn put_result(res: &mut ResultWords, a: Answer) -> u32
    ensures { (result ≡ (paper a).number) × (res.new ≡ result_words (paper a)) }
{
    *res = [0; RESULT_WORDS];
    match a {
        Answer::Handled(values) => {
            let signal = values.signal;
            res[0] = values.count as u64;
            res[10] = values.padding as u64;
            match signal {
                Signal::Quiet => {}
                Signal::Kick { vcpu, wait } => {
                    res[2] = 1;
                    res[3] = vcpu as u64;
                    res[4] = wait as u64;
                }
                Signal::Crash { vcpu } => {
                    res[2] = 2;
                    res[3] = vcpu as u64;
                }
                Signal::Resume(resumption) => {
                    res[2] = 3;
                    res[3] = resumption.vcpu as u64;
                    put_resumption(res, resumption);
                    if matches!(resumption.feed.source, Source::Missing) {
                        return 12;
                    }
                }
            }
            0
        }
        Answer::Closing => 1,
        Answer::Closed => 2,
        Answer::ShortOut => 3,
        Answer::BadVcpu => 4,
        Answer::BadState => 5,
        Answer::Waiting => 6,
        Answer::BadSettings => 7,
        Answer::BadForm { offset } => {
            res[1] = offset as u64;
            8
        }
        Answer::Forbidden { offset } => {
            res[1] = offset as u64;
            9
        }
        Answer::Busy => 10,
        Answer::NotApplicable => 14,
    }
}

// What a call gave, as a host has it.
fn finish(done: session::Done, res: &mut ResultWords) -> Returned
    ensures { (result ≡ (given (told done [] [] [] [])).done) × (res.new ≡ (given (told done [] [] [] [])).result) }
{
    let answer = done.answer;
    let session = done.session;
    let code = put_result(res, answer);
    Returned { code, session }
}

// A vCPU number of a host, which may be any: past u16, the last u16, which no session has.
pub fn vcpu_number(vcpu: u32) -> u16
    ensures { result ≡ min vcpu 65535 }
{
    vcpu.min(65535) as u16
}

// ---- the calls

// A session begins fresh, by the settings that stand in it: of the session nothing else is read.
pub fn fresh(
    s: Session,
    vcpus: &mut VcpuWords,
    pages: &mut PageWords,
    res: &mut ResultWords,
) -> Returned
    ensures { (result ≡ (fresh_given s vcpus.old pages.old).done)
        × (vcpus.new ≡ (fresh_given s vcpus.old pages.old).vcpus)
        × (pages.new ≡ (fresh_given s vcpus.old pages.old).pages)
        × (res.new ≡ (fresh_given s vcpus.old pages.old).result) }
{
    let settings = s.settings;
    let done = Session::fresh(settings, vcpus, pages);
    finish(done, res)
}

// A vCPU can be introspected from now on.
pub fn ready(s: Session, vcpu: u32, res: &mut ResultWords) -> Returned
    ensures { (result ≡ (ready_given s vcpu).done)
        × (res.new ≡ (ready_given s vcpu).result) }
{
    let done = s.ready(vcpu_number(vcpu));
    finish(done, res)
}

// One message of the tool. `message::session_after` makes the session after it.
pub fn message(
    s: Session,
    vcpus: &mut VcpuWords,
    pages: &mut PageWords,
    msg: &[u8],
    out: &mut [u8],
    guest: &mut [u8],
    res: &mut ResultWords,
) -> Received
    ensures { (result.code ≡ (message_given s vcpus.old pages.old msg.now out.old guest.old).done.code)
        × (session_after s result.after ≡ (message_given s vcpus.old pages.old msg.now out.old guest.old).done.session)
        × (vcpus.new ≡ (message_given s vcpus.old pages.old msg.now out.old guest.old).vcpus)
        × (pages.new ≡ (message_given s vcpus.old pages.old msg.now out.old guest.old).pages)
        × (out.new ≡ (message_given s vcpus.old pages.old msg.now out.old guest.old).out)
        × (guest.new ≡ (message_given s vcpus.old pages.old msg.now out.old guest.old).guest)
        × (res.new ≡ (message_given s vcpus.old pages.old msg.now out.old guest.old).result)
        × (result.after ≡ message_move (state s vcpus.old pages.old) msg.now out.old guest.old) }
{
    let r = message::receive(s, vcpus, pages, msg, out, guest);
    let answer = r.answer;
    let code = put_result(res, answer);
    Received {
        code,
        after: r.after,
    }
}

// A vCPU enters the guest, with its register block and an event that it is offered.
pub fn enter(
    s: Session,
    vcpus: &mut VcpuWords,
    pages: &PageWords,
    vcpu: u32,
    block: &[u8],
    event: u32,
    own: &[u8],
    out: &mut [u8],
    res: &mut ResultWords,
) -> Returned
    ensures { (result ≡ (enter_given s vcpus.old pages.now vcpu block.now event own.now out.old).done)
        × (vcpus.new ≡ (enter_given s vcpus.old pages.now vcpu block.now event own.now out.old).vcpus)
        × (out.new ≡ (enter_given s vcpus.old pages.now vcpu block.now event own.now out.old).out)
        × (res.new ≡ (enter_given s vcpus.old pages.now vcpu block.now event own.now out.old).result) }
{
    let done = entry::enter(s, vcpus, pages, vcpu_number(vcpu), block, event, own, out);
    finish(done, res)
}

// A session begins with what an image states: of the session only its settings are read.
pub fn image_read(
    s: Session,
    vcpus: &mut VcpuWords,
    pages: &mut PageWords,
    image: &[u8],
    res: &mut ResultWords,
) -> Returned
    ensures { (result ≡ (read_given s vcpus.old pages.old image.now).done)
        × (vcpus.new ≡ (read_given s vcpus.old pages.old image.now).vcpus)
        × (pages.new ≡ (read_given s vcpus.old pages.old image.now).pages)
        × (res.new ≡ (read_given s vcpus.old pages.old image.now).result) }
{
    let settings = s.settings;
    let done = image_reader::read_image(settings, image, vcpus, pages);
    finish(done, res)
}

// The image of a session, which stays as it is.
pub fn image_write(
    s: Session,
    vcpus: &VcpuWords,
    pages: &PageWords,
    out: &mut [u8],
    res: &mut ResultWords,
) -> u32
    ensures { (result ≡ (write_given s vcpus.now pages.now out.old).done.code)
        × (out.new ≡ (write_given s vcpus.now pages.now out.old).out)
        × (res.new ≡ (write_given s vcpus.now pages.now out.old).result) }
{
    let done = image_writer::write_image(s, vcpus, pages, out);
    let d = finish(done, res);
    d.code
}

// How many bytes the image of a session has.
pub fn image_size(s: Session, vcpus: &VcpuWords, pages: &PageWords) -> usize
    ensures { result ≡ size_given s vcpus.now pages.now }
{
    image_writer::image_size(s, vcpus, pages)
}

// ---- the calls on a list of vCPU records that the host keeps, on one record

// What such a call gives: the record after it, and the answer's number.
#[derive(Clone, Copy)]
pub struct ListReturned {
    pub vcpu: Vcpu,
    pub code: u32,
}

fn list_returned(changed: vcpu_list::Changed) -> ListReturned
    ensures { result ≡ one_given (one changed) }
{
    let vcpu = changed.vcpu;
    let answer = changed.answer;
    let mut values = [0; RESULT_WORDS];
    let code = put_result(&mut values, answer);
    ListReturned { vcpu, code }
}

// A record that can be introspected from now on.
pub fn list_ready(v: Vcpu) -> ListReturned
    ensures { result ≡ one_given (one_ready v) }
{
    list_returned(vcpu_list::readied(v))
}

// A record with the switch of one control register: on where `on` is not 0.
pub fn list_cr(v: Vcpu, cr: u32, on: u32) -> ListReturned
    ensures { result ≡ one_given (one_cr v cr (is_set on)) }
{
    list_returned(vcpu_list::with_cr(v, cr, on != 0))
}
