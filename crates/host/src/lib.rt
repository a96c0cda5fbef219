// The filter as hosts in C and Rust call it (include/semblurick.h). The host owns a session, a small struct, and its two tables; each call is lent
// them, moves them and gives the answer's number. What is done is a function of `calls` on the session by value; the exported function copies the
// session out of the reference, calls that function, and stores back what the call can change: a ready mark what the tools share; an entry the next
// event's seq; a message, only where something moved and number by number, all but the settings of the session that `message::session_after` makes; a
// beginning all of it. They are the raw calls: the header has calls over a struct of session and tables beside them, by these.
#![tactic(auto)]

ghost use Rattle.std.specs.Prelude.{◌≡◌, ◌<◌, ◌≤◌, length, set, slice_index_or};
ghost use Rattle.calls.specs.declared.ListReturned.{ListReturned};
ghost use Rattle.calls.specs.Given.{fresh_given, ready_given, message_given, enter_given, size_given, write_given, read_given};
ghost use Rattle.lookup.specs.Lookup.{look_open, look_ready, look_vm_event, look_count, look_access, numbers_of, look_page, look_event, look_cr, look_msr, look_singlestep, look_pauses, look_awaited};
ghost use Rattle.vcpu_list.specs.List.{blank, marked_ready, cr_set};
ghost use Rattle.kvmi.specs.Settings.{is_set};

use calls::{ListReturned, ResultWords};
use lookup::PageNumbers;
use message::After;
use page_words::PageWords;
use session::Session;
use store::words::VcpuWords;
use vcpu_list::Vcpu;

// A session begins fresh, by the settings that stand in it, on whatever words are lent.
#[unsafe(no_mangle)]
pub extern "C" fn semblurick_raw_fresh(
    s: &mut Session,
    vcpus: &mut VcpuWords,
    pages: &mut PageWords,
    res: &mut ResultWords,
) -> u32
    ensures { (result ≡ (fresh_given s.old vcpus.old pages.old).done.code)
        × (s.new ≡ (fresh_given s.old vcpus.old pages.old).done.session)
        × (vcpus.new ≡ (fresh_given s.old vcpus.old pages.old).vcpus)
        × (pages.new ≡ (fresh_given s.old vcpus.old pages.old).pages)
        × (res.new ≡ (fresh_given s.old vcpus.old pages.old).result) }
{
    let d = calls::fresh(*s, vcpus, pages, res);
    *s = d.session;
    d.code
}

// A vCPU can be introspected from now on.
#[unsafe(no_mangle)]
pub extern "C" fn semblurick_raw_ready(s: &mut Session, vcpu: u32, res: &mut ResultWords) -> u32
    ensures { (result ≡ (ready_given s.old vcpu).done.code)
        × (s.new ≡ (ready_given s.old vcpu).done.session)
        × (res.new ≡ (ready_given s.old vcpu).result) }
{
    let d = calls::ready(*s, vcpu, res);
    s.shared = d.session.shared;
    d.code
}

// One message of the tool.
#[unsafe(no_mangle)]
pub extern "C" fn semblurick_raw_message(
    s: &mut Session,
    vcpus: &mut VcpuWords,
    pages: &mut PageWords,
    msg: &[u8],
    out: &mut [u8],
    guest: &mut [u8],
    res: &mut ResultWords,
) -> u32
    ensures { (result ≡ (message_given s.old vcpus.old pages.old msg.now out.old guest.old).done.code)
        × (s.new ≡ (message_given s.old vcpus.old pages.old msg.now out.old guest.old).done.session)
        × (vcpus.new ≡ (message_given s.old vcpus.old pages.old msg.now out.old guest.old).vcpus)
        × (pages.new ≡ (message_given s.old vcpus.old pages.old msg.now out.old guest.old).pages)
        × (out.new ≡ (message_given s.old vcpus.old pages.old msg.now out.old guest.old).out)
        × (guest.new ≡ (message_given s.old vcpus.old pages.old msg.now out.old guest.old).guest)
        × (res.new ≡ (message_given s.old vcpus.old pages.old msg.now out.old guest.old).result) }
{
    let d = calls::message(*s, vcpus, pages, msg, out, guest, res);
    if !matches!(d.after, After::Same) {
        let after = message::session_after(*s, d.after);
        // number by number: a store of the whole struct would write the four bytes behind the seq too, which are the host's
        s.tool.events = after.tool.events;
        s.tool.pages = after.tool.pages;
        s.tool.opened = after.tool.opened;
        s.tool.mode = after.tool.mode;
        s.tool.seq = after.tool.seq;
        s.shared = after.shared;
    }
    d.code
}

// A vCPU enters the guest, with its register block and an event that it is offered.
#[unsafe(no_mangle)]
pub extern "C" fn semblurick_raw_enter(
    s: &mut Session,
    vcpus: &mut VcpuWords,
    pages: &PageWords,
    vcpu: u32,
    block: &[u8],
    event: u32,
    own: &[u8],
    out: &mut [u8],
    res: &mut ResultWords,
) -> u32
    ensures { (result ≡ (enter_given s.old vcpus.old pages.now vcpu block.now event own.now out.old).done.code)
        × (s.new ≡ (enter_given s.old vcpus.old pages.now vcpu block.now event own.now out.old).done.session)
        × (vcpus.new ≡ (enter_given s.old vcpus.old pages.now vcpu block.now event own.now out.old).vcpus)
        × (out.new ≡ (enter_given s.old vcpus.old pages.now vcpu block.now event own.now out.old).out)
        × (res.new ≡ (enter_given s.old vcpus.old pages.now vcpu block.now event own.now out.old).result) }
{
    let d = calls::enter(*s, vcpus, pages, vcpu, block, event, own, out, res);
    s.tool.seq = d.session.tool.seq;
    d.code
}

// A session begins with what an image states.
#[unsafe(no_mangle)]
pub extern "C" fn semblurick_raw_image_read(
    s: &mut Session,
    vcpus: &mut VcpuWords,
    pages: &mut PageWords,
    image: &[u8],
    res: &mut ResultWords,
) -> u32
    ensures { (result ≡ (read_given s.old vcpus.old pages.old image.now).done.code)
        × (s.new ≡ (read_given s.old vcpus.old pages.old image.now).done.session)
        × (vcpus.new ≡ (read_given s.old vcpus.old pages.old image.now).vcpus)
        × (pages.new ≡ (read_given s.old vcpus.old pages.old image.now).pages)
        × (res.new ≡ (read_given s.old vcpus.old pages.old image.now).result) }
{
    let d = calls::image_read(*s, vcpus, pages, image, res);
    *s = d.session;
    d.code
}

// The image of a session, which stays as it is.
#[unsafe(no_mangle)]
pub extern "C" fn semblurick_raw_image_write(
    s: &Session,
    vcpus: &VcpuWords,
    pages: &PageWords,
    out: &mut [u8],
    res: &mut ResultWords,
) -> u32
    ensures { (result ≡ (write_given s.now vcpus.now pages.now out.old).done.code)
        × (out.new ≡ (write_given s.now vcpus.now pages.now out.old).out)
        × (res.new ≡ (write_given s.now vcpus.now pages.now out.old).result) }
{
    calls::image_write(*s, vcpus, pages, out, res)
}

// How many bytes the image of a session has.
#[unsafe(no_mangle)]
pub extern "C" fn semblurick_raw_image_size(
    s: &Session,
    vcpus: &VcpuWords,
    pages: &PageWords,
) -> usize
    ensures { result ≡ size_given s.now vcpus.now pages.now }
{
    calls::image_size(*s, vcpus, pages)
}

// ---- lookups

// Whether a session is open.
#[unsafe(no_mangle)]
pub extern "C" fn semblurick_raw_is_open(s: &Session) -> u32
    ensures { result ≡ look_open s.now }
{
    lookup::is_open(*s)
}

// Whether a vCPU is ready.
#[unsafe(no_mangle)]
pub extern "C" fn semblurick_raw_is_ready(s: &Session, vcpu: u32) -> u32
    ensures { result ≡ look_ready s.now vcpu }
{
    lookup::is_ready(*s, vcpu)
}

// Whether an event is on for the VM.
#[unsafe(no_mangle)]
pub extern "C" fn semblurick_raw_vm_event(s: &Session, event: u32) -> u32
    ensures { result ≡ look_vm_event s.now event }
{
    lookup::vm_event(*s, event)
}

// Whether an event is on for a vCPU.
#[unsafe(no_mangle)]
pub extern "C" fn semblurick_raw_vcpu_event(
    s: &Session,
    vcpus: &VcpuWords,
    vcpu: u32,
    event: u32,
) -> u32
    ensures { result ≡ look_event s.now vcpus.now vcpu event }
{
    lookup::vcpu_event(*s, vcpus, vcpu, event)
}

// Whether a CR's switch is on.
#[unsafe(no_mangle)]
pub extern "C" fn semblurick_raw_cr(s: &Session, vcpus: &VcpuWords, vcpu: u32, cr: u32) -> u32
    ensures { result ≡ look_cr s.now vcpus.now vcpu cr }
{
    lookup::cr(*s, vcpus, vcpu, cr)
}

// Whether an MSR's switch is on.
#[unsafe(no_mangle)]
pub extern "C" fn semblurick_raw_msr(s: &Session, vcpus: &VcpuWords, vcpu: u32, msr: u32) -> u32
    ensures { result ≡ look_msr s.now vcpus.now vcpu msr }
{
    lookup::msr(*s, vcpus, vcpu, msr)
}

// Whether a vCPU is single-stepped.
#[unsafe(no_mangle)]
pub extern "C" fn semblurick_raw_singlestep(s: &Session, vcpus: &VcpuWords, vcpu: u32) -> u32
    ensures { result ≡ look_singlestep s.now vcpus.now vcpu }
{
    lookup::singlestep(*s, vcpus, vcpu)
}

// How many pauses are queued for a vCPU.
#[unsafe(no_mangle)]
pub extern "C" fn semblurick_raw_pauses(s: &Session, vcpus: &VcpuWords, vcpu: u32) -> u64
    ensures { result ≡ look_pauses s.now vcpus.now vcpu }
{
    lookup::pauses(*s, vcpus, vcpu)
}

// The event whose reply a vCPU awaits, or 0.
#[unsafe(no_mangle)]
pub extern "C" fn semblurick_raw_awaited(s: &Session, vcpus: &VcpuWords, vcpu: u32) -> u64
    ensures { result ≡ look_awaited s.now vcpus.now vcpu }
{
    lookup::awaited(*s, vcpus, vcpu)
}

// How many pages stand below rwx.
#[unsafe(no_mangle)]
pub extern "C" fn semblurick_raw_page_count(s: &Session) -> usize
    ensures { result ≡ look_count s.now }
{
    lookup::page_count(*s)
}

// The access of a page.
#[unsafe(no_mangle)]
pub extern "C" fn semblurick_raw_access(s: &Session, pages: &PageWords, view: u32, page: u64) -> u32
    ensures { result ≡ look_access s.now pages.now view page }
{
    lookup::access(*s, pages, view, page)
}

// View, number and access of one of the pages below rwx; its access is the result too.
#[unsafe(no_mangle)]
pub extern "C" fn semblurick_raw_page_at(
    s: &Session,
    pages: &PageWords,
    i: usize,
    page: &mut PageNumbers,
) -> u32
    ensures { (result ≡ (look_page s.now pages.now i).access)
        × (page.new ≡ numbers_of (look_page s.now pages.now i)) }
{
    lookup::page_at(*s, pages, i, page)
}

// ---- vCPU records that a host keeps in a list of its own

// Record i as `change` leaves it, and the number of its answer; 4 where there is no such record. `vcpu_list` has one like it, by an `Answer`: this one is
// passed calls, whose answer is a number.
#[tactic(auto, using(std::proofs::lemmas::List::get_or_default))]
fn at_record<F: FnOnce(Vcpu) -> ListReturned>(vcpus: &mut [Vcpu], i: usize, change: F) -> u32
    requires { F.IsAlwaysCallable change }
    ensures inside { i < length vcpus.old → (c : ListReturned) × F.post change (slice_index_or vcpus.old i blank) c × (result ≡ c.code) × (vcpus.new ≡ set vcpus.old i c.vcpu) }
    ensures outside { length vcpus.old ≤ i → (result ≡ 4) × (vcpus.new ≡ vcpus.old) }
{
    if i < vcpus.len() {
        let vcpu = &mut vcpus[i];
        let changed = change(*vcpu);
        *vcpu = changed.vcpu;
        changed.code
    } else {
        4
    }
}

// Record i can be introspected from now on.
#[tactic(auto, unfolding(vcpu_list::specs::List::marked_ready, vcpu_list::specs::List::on_record))]
#[unsafe(no_mangle)]
pub extern "C" fn semblurick_list_ready(vcpus: &mut [Vcpu], i: usize) -> u32
    ensures { (result ≡ (marked_ready vcpus.old i).answer.number) × (vcpus.new ≡ (marked_ready vcpus.old i).vcpus) }
{
    at_record(vcpus, i, calls::list_ready)
}

// One CR switch of record i: on where `on` is not 0.
#[tactic(auto, unfolding(vcpu_list::specs::List::cr_set, vcpu_list::specs::List::on_record))]
#[unsafe(no_mangle)]
pub extern "C" fn semblurick_list_cr(vcpus: &mut [Vcpu], i: usize, cr: u32, on: u32) -> u32
    ensures { (result ≡ (cr_set vcpus.old i cr (is_set on)).answer.number) × (vcpus.new ≡ (cr_set vcpus.old i cr (is_set on)).vcpus) }
{
    at_record(vcpus, i, |v| calls::list_cr(v, cr, on))
}
