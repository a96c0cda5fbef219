// The call for several messages in one write, as hosts in C and Rust call it (include/semblurick.h). It is a library of its own, linked beside that of
// `host`: so the compiler makes one piece of a batch's loop and all that a message does, and another of the single call, neither of which pays for
// the other.
#![tactic(auto)]

ghost use Rattle.std.specs.Prelude.{◌≡◌};
ghost use Rattle.batch_given.specs.Given.{batch_words, batch_given};

use calls::{RESULT_WORDS, ResultWords, Returned};
use kvmi::Resumption;
use page_words::PageWords;
use session::Session;
use store::words::VcpuWords;

// The number of a resume among the signals, as the header has it.
const RESUME: u64 = 3;

// A batch's values, into the words lent for them.
fn put_batch(
    res: &mut ResultWords,
    used: usize,
    count: usize,
    listed: usize,
    resume: Option<Resumption>,
)
    ensures { res.new ≡ batch_words used count listed resume }
{
    *res = [0; RESULT_WORDS];
    res[0] = used as u64;
    res[1] = count as u64;
    res[2] = listed as u64;
    if let Some(resumption) = resume {
        res[3] = RESUME;
        res[4] = resumption.vcpu as u64;
        calls::put_resumption(res, resumption);
    }
}

// Several messages of the tool in one write, on a session by value.
fn take(
    s: Session,
    vcpus: &mut VcpuWords,
    pages: &mut PageWords,
    input: &[u8],
    out: &mut [u8],
    signals: &mut [u32],
    guest: &mut [u8],
    res: &mut ResultWords,
) -> Returned
    ensures { (result ≡ (batch_given s vcpus.old pages.old input.now out.old signals.old guest.old).done)
        × (vcpus.new ≡ (batch_given s vcpus.old pages.old input.now out.old signals.old guest.old).vcpus)
        × (pages.new ≡ (batch_given s vcpus.old pages.old input.now out.old signals.old guest.old).pages)
        × (out.new ≡ (batch_given s vcpus.old pages.old input.now out.old signals.old guest.old).out)
        × (signals.new ≡ (batch_given s vcpus.old pages.old input.now out.old signals.old guest.old).signals)
        × (guest.new ≡ (batch_given s vcpus.old pages.old input.now out.old signals.old guest.old).guest)
        × (res.new ≡ (batch_given s vcpus.old pages.old input.now out.old signals.old guest.old).result) }
{
    let b = batch::take(s, vcpus, pages, input, out, signals, guest);
    let session = b.session;
    let resume = b.resume;
    put_batch(res, b.used, b.count, b.listed, resume);
    Returned {
        code: b.number,
        session,
    }
}

// Several messages of the tool in one write.
#[unsafe(no_mangle)]
pub extern "C" fn semblurick_raw_batch(
    s: &mut Session,
    vcpus: &mut VcpuWords,
    pages: &mut PageWords,
    input: &[u8],
    out: &mut [u8],
    signals: &mut [u32],
    guest: &mut [u8],
    res: &mut ResultWords,
) -> u32
    ensures { (result ≡ (batch_given s.old vcpus.old pages.old input.now out.old signals.old guest.old).done.code)
        × (s.new ≡ (batch_given s.old vcpus.old pages.old input.now out.old signals.old guest.old).done.session)
        × (vcpus.new ≡ (batch_given s.old vcpus.old pages.old input.now out.old signals.old guest.old).vcpus)
        × (pages.new ≡ (batch_given s.old vcpus.old pages.old input.now out.old signals.old guest.old).pages)
        × (out.new ≡ (batch_given s.old vcpus.old pages.old input.now out.old signals.old guest.old).out)
        × (signals.new ≡ (batch_given s.old vcpus.old pages.old input.now out.old signals.old guest.old).signals)
        × (guest.new ≡ (batch_given s.old vcpus.old pages.old input.now out.old signals.old guest.old).guest)
        × (res.new ≡ (batch_given s.old vcpus.old pages.old input.now out.old signals.old guest.old).result) }
{
    let d = take(*s, vcpus, pages, input, out, signals, guest, res);
    // number by number: a store of the whole struct would write the four bytes behind the seq too, which are the host's
    s.tool.events = d.session.tool.events;
    s.tool.pages = d.session.tool.pages;
    s.tool.opened = d.session.tool.opened;
    s.tool.mode = d.session.tool.mode;
    s.tool.seq = d.session.tool.seq;
    s.shared = d.session.shared;
    d.code
}
