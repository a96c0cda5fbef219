// Several messages of the tool in one write, end to end: each is cut off by its size field and taken as a single one is, on what the one before it
// left. What they write stands end to end in one output, their signals in a list that the host lends.
#![tactic(auto)]

ghost use Rattle.std.specs.Prelude.{◌≡◌, ℕ, ◌+◌, ◌≤◌, ◌<◌, true, List, [], ◌∷◌, ◌++◌, eqb, length, take};
ghost use Rattle.kvmi.specs.Batch.{next_length, listed_as, feed_in, resume_of, refusal_of, goes_on, counted, turn_of};
ghost use Rattle.kvmi.specs.Answer.{paper};
ghost use Rattle.session.specs.State.{state};
ghost use Rattle.session.specs.Calls.{told};
ghost use Rattle.wire.specs.Bytes.{store};
ghost use Rattle.batch.specs.Batch.{told_taken, message_takes, batch_of, batched, supplied_at, fed_at};

use kvmi::{Feed, Resumption, Signal, Source};
use page_words::PageWords;
use session::{Done, Session};
use store::words::VcpuWords;

// A kick's number in the list of signals, which C lends: this, twice the vCPU, and 1 more with wait.
const KICK: u32 = 256;

// A crash's: this and the vCPU.
const CRASH: u32 = 512;

// How far a batch is, or where it ended: the answer's number, how many bytes of the input are used, bytes of the output written and signals listed,
// the session after the messages that were taken, and the resume that ended it, if one did. The answer is a number, since 11 is no `Answer`. The numbers stand first: behind the other two the compiler
// keeps fewer of them in registers, and a message of a batch takes ten instructions more.
#[derive(Clone, Copy)]
pub struct Batched {
    pub number: u32,
    pub used: usize,
    pub count: usize,
    pub listed: usize,
    pub session: Session,
    pub resume: Option<Resumption>,
}

// Why a batch is refused: the session is closed, the output is too short, or the list of signals has no place. 0: it is not. The number is that of the
// answer, as `refusal_of` has it: an enum would need a function more, back to this number.
fn refusal(opened: u32, out: usize, signals: usize) -> u32
    ensures { result ≡ refusal_of (eqb opened 0) out signals }
{
    if opened == 0 {
        return 2;
    }
    if Session::is_short(out) {
        return 3;
    }
    if signals == 0 {
        return 11;
    }
    0
}

// How many bytes the next message has: its header and as many as its size field says, or all that are left.
fn next_length(input: &[u8]) -> usize
    ensures { result ≡ next_length input.now }
{
    wire::smaller(8 + wire::load::<u16>(input, 2) as usize, input.len())
}

// One more in the list. Gives how many there are then.
fn put(signals: &mut [u32], listed: usize, code: u32) -> usize
    requires { listed < length signals.old }
    ensures { (result ≡ listed + 1) × (signals.new ≡ store signals.old listed (code ∷ [])) }
{
    signals[listed] = code;
    listed + 1
}

// A signal into the list, if it takes a place there. Gives how many are listed then.
fn list(signals: &mut [u32], listed: usize, signal: Signal) -> usize
    requires { listed < length signals.old }
    ensures { (result ≡ listed + length (listed_as signal)) × (signals.new ≡ store signals.old listed (listed_as signal)) }
{
    match signal {
        Signal::Quiet => listed,
        Signal::Kick { wait, vcpu } => {
            put(signals, listed, KICK + 2 * (vcpu as u32) + (wait as u32))
        }
        Signal::Crash { vcpu } => put(signals, listed, CRASH + vcpu as u32),
        Signal::Resume(_) => listed,
    }
}

// The bytes that feed a resumed vCPU, where its message begins at a byte of the input: those that the message supplies are a part of the input. One number
// is set in a copy: with `..feed` in an arm a message of a batch takes 192 instructions and not 170, counted without the proofs.
fn feed_in(start: usize, feed: Feed) -> Feed
    requires { start + supplied_at feed ≤ 18446744073709551615 }
    ensures { result ≡ feed_in start feed }
{
    let mut f = feed;
    if matches!(feed.source, Source::Message) {
        f.at = start as u64 + feed.at;
    }
    f
}

// What is handed back of a signal beside the list: a resume.
fn resume_of(start: usize, signal: Signal) -> Option<Resumption>
    requires { start + fed_at signal ≤ 18446744073709551615 }
    ensures { result ≡ resume_of start signal }
{
    if let Signal::Resume(resumption) = signal {
        Some(Resumption {
            feed: feed_in(start, resumption.feed),
            ..resumption
        })
    } else {
        None
    }
}

// Whether there is a next message, and room for whatever it writes and signals. The tests stand one by one and in this order: as a chain of `&&` a message of
// a batch takes 162 instructions and not 143 (150 are its bound), and in the five other orders that were counted 150 to 161.
#[tactic(auto, using(std::proofs::lemmas::Bool::Decides::nat_tests), unfolding(kvmi::specs::Batch::goes_on))]
fn goes_on(b: Batched, input: &[u8], out: &[u8], signals: &[u32]) -> bool
    requires { b.count ≤ length out.now }
    ensures { (vcpus pages guest : List ℕ) → result ≡ goes_on input.now (batched b vcpus pages out.now signals.now guest) }
{
    if b.number != 0 {
        return false;
    }
    if b.resume.is_some() {
        return false;
    }
    if Session::is_short(out.len() - b.count) {
        return false;
    }
    if input.len() <= b.used {
        return false;
    }
    b.listed < signals.len()
}

// A message was taken: it is used, whatever its answer is, and what it wrote and signalled is counted.
fn count(b: Batched, used: usize, done: Done, signals: &mut [u32]) -> Batched
    requires { (b.listed < length signals.old) × (b.count + (paper done.answer).count ≤ 18446744073709551615)
        × (b.used + fed_at (paper done.answer).signal ≤ 18446744073709551615) }
    ensures { (n : ℕ) (vcpus pages out out' guest guest' v p : List ℕ) → used ≡ b.used + n
        → batched result vcpus pages (take b.count out ++ out') signals.new guest'
        ≡ counted (batched b v p out signals.old guest) n (told_taken (told done vcpus pages out' guest')) }
{
    let answer = done.answer;
    let session = done.session;
    let values = kvmi::answers::values(answer);
    let signal = values.signal;
    Batched {
        session,
        resume: resume_of(b.used, signal),
        number: stream::answer_number(answer) as u32,
        used,
        count: b.count + values.count,
        listed: list(signals, b.listed, signal),
    }
}

// One message.
fn turn(
    b: Batched,
    vcpus: &mut VcpuWords,
    pages: &mut PageWords,
    input: &[u8],
    out: &mut [u8],
    signals: &mut [u32],
    guest: &mut [u8],
) -> Batched
    requires { goes_on input.now (batched b vcpus.old pages.old out.old signals.old guest.old) ≡ true }
    ensures { batched result vcpus.new pages.new out.new signals.new guest.new ≡
        turn_of message_takes input.now (batched b vcpus.old pages.old out.old signals.old guest.old) }
{
    let session = b.session;
    let at = b.used;
    let wrote = b.count;
    let end = at + next_length(&input[at..]);
    let done = message::take(
        session,
        vcpus,
        pages,
        &input[at..end],
        &mut out[wrote..],
        guest,
    );
    count(b, end, done, signals)
}

// The messages of one write of the tool.
pub fn take(
    s: Session,
    vcpus: &mut VcpuWords,
    pages: &mut PageWords,
    input: &[u8],
    out: &mut [u8],
    signals: &mut [u32],
    guest: &mut [u8],
) -> Batched
    ensures { batched result vcpus.new pages.new out.new signals.new guest.new ≡
        batch_of (state s vcpus.old pages.old) input.now out.old signals.old guest.old }
{
    let mut b = Batched {
        session: s,
        resume: None,
        number: refusal(s.tool.opened, out.len(), signals.len()),
        used: 0,
        count: 0,
        listed: 0,
    };
    while goes_on(b, input, out, signals) {
        b = turn(b, vcpus, pages, input, out, signals, guest);
    }
    b
}
