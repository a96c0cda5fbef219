// The image writer: the image of a session, or the answer where none is written.
#![tactic(auto)]

ghost use Rattle.std.specs.Prelude.{◌≡◌, [], length};
ghost use Rattle.kvmi.specs.Image.{image};
ghost use Rattle.kvmi.specs.Call.{awaits_any};
ghost use Rattle.session.specs.State.{state};
ghost use Rattle.session.specs.Calls.{told};
ghost use Rattle.session.specs.Meaning.{awaited_of};
ghost use Rattle.image_writer.specs.Write.{stated_tables, image_of};

use kvmi::Answer;
use session::{Done, Session};

// Whether any of the first n vCPUs awaits a reply.
fn awaits(words: &[u64], n: u16) -> bool
    ensures { result ≡ awaits_any (awaited_of words.now 0 n) }
{
    (0..n).any(|i| store::words::read_field(words, i, store::words::AWAITED) != 0)
}

// How many bytes the image of a session has.
pub fn image_size(s: Session, vcpus: &[u64], pages: &[u64]) -> usize
    ensures { result ≡ length (image (stated_tables (state s vcpus.now pages.now))) }
{
    image_bytes::measure(s.settings.vcpus, s.tool.pages, vcpus, pages)
}

// What `write_image` answers.
#[tactic(auto, unfolding(crate::specs::Write::image_of))]
fn put_image(s: Session, vcpus: &[u64], pages: &[u64], out: &mut [u8]) -> Answer
    ensures { told (record { session = s; answer = result }) vcpus.now pages.now out.new [] ≡ image_of (state s vcpus.now pages.now) out.old }
{
    if s.tool.opened == 0 {
        return Answer::Closed;
    }
    let n = image_bytes::stated_count(s.settings.vcpus);
    if awaits(vcpus, n) {
        return Answer::Busy;
    }
    let count = image_bytes::put(
        out,
        s.tool.events,
        s.shared.ready,
        s.settings.vcpus,
        s.tool.pages,
        vcpus,
        pages,
    );
    if out.len() < count {
        Answer::ShortOut
    } else {
        kvmi::answers::wrote(count)
    }
}

// The image of a session, at the start of the output. Past it, and if the answer is not 0, the output stays as it was.
pub fn write_image(s: Session, vcpus: &[u64], pages: &[u64], out: &mut [u8]) -> Done
    ensures { told result vcpus.now pages.now out.new [] ≡ image_of (state s vcpus.now pages.now) out.old }
{
    s.answers(put_image(s, vcpus, pages, out))
}
