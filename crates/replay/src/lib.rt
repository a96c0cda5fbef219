// Document 01's runner, but for reading and printing: the session that it starts with, what becomes of one message, and the text
// that is printed.
#![tactic(auto)]

ghost use Rattle.std.specs.Prelude.{◌≡◌, replicate};
ghost use Rattle.store.specs.Words.{vcpu_word_count};
ghost use Rattle.page_words.specs.PageWords.{page_word_count};
ghost use Rattle.session.specs.State.{state};
ghost use Rattle.line_text.specs.Text.{Counts};
ghost use Rattle.replay.specs.Runner.{runner_settings, start_of, left, passed_of, turn_left, told_of, turn_of};

use kvmi::Settings;
use page_words::{PAGE_WORDS, PageWords};
use session::Session;
use store::words::{VCPU_WORDS, VcpuWords};
use stream::{Cut, End, Line};

// What a message leaves: the session for the next one, the facts of its line, and whether it closed the session. The mark is a field of its own, and the
// session no Option: a session that closed is handed on too, and `passed_of` promises it.
#[derive(Clone, Copy)]
pub struct Passed {
    pub session: Session,
    pub line: Line,
    pub closes: bool,
}

// What a turn leaves: the session for the next one, how many bytes of text are to be printed, and the end of the run where it is over, of which
// its own line is still to be printed.
#[derive(Clone, Copy)]
pub struct Turned {
    pub session: Session,
    pub count: usize,
    pub end: Option<End>,
}

// 2 vCPUs, 1 view, everything allowed and supported, breakpoints free, execute-only pages.
pub fn settings() -> Settings
    ensures { result ≡ runner_settings }
{
    Settings {
        vcpus: 2,
        views: 1,
        commands: u32::MAX,
        events: u32::MAX,
        tsc: 0,
        singlestep: 1,
        vmfunc: 1,
        eptp: 1,
        ve: 1,
        spp: 1,
        descriptors: 1,
        breakpoints: 0,
        execute_only: 1,
        revision: 1,
    }
}

// A fresh session whose two vCPUs are ready, on whatever words are lent.
pub fn start(vcpus: &mut VcpuWords, pages: &mut PageWords) -> Session
    ensures { state result vcpus.new pages.new ≡ start_of vcpus.old pages.old }
{
    let begun = Session::fresh(settings(), vcpus, pages);
    begun.session.ready(0).session.ready(1).session
}

// One message, whole or cut, through the session.
#[tactic(auto, unfolding(crate::specs::Runner::passed_of))]
pub fn pass(
    s: Session,
    vcpus: &mut VcpuWords,
    pages: &mut PageWords,
    msg: &[u8],
    out: &mut [u8],
    guest: &mut [u8],
) -> Passed
    ensures { left result vcpus.new pages.new out.new guest.new ≡
        passed_of (state s vcpus.old pages.old) msg.now out.old guest.old }
{
    let done = message::take(s, vcpus, pages, msg, out, guest);
    Passed {
        session: done.session,
        line: stream::describe(msg, out, done.answer),
        closes: stream::closes(done.answer),
    }
}

// A message is passed on, and its line put into `text`.
#[tactic(auto, unfolding(crate::specs::Runner::told_of))]
fn tell(
    index: u64,
    s: Session,
    vcpus: &mut VcpuWords,
    pages: &mut PageWords,
    msg: &[u8],
    out: &mut [u8],
    guest: &mut [u8],
    text: &mut [u8; 128],
) -> Turned
    ensures text_after { turn_left result vcpus.new pages.new out.new guest.new text.new ≡
        told_of index (state s vcpus.old pages.old) msg.now out.old guest.old text.old }
    ensures counts { Counts result.count text.new }
{
    let passed = pass(s, vcpus, pages, msg, out, guest);
    Turned {
        session: passed.session,
        count: line_text::put_line(text, index, passed.line),
        end: passed.closes.then_some(End::Closed),
    }
}

// One turn: `msg` is what the input has of the next message, nothing where it is over.
#[tactic(auto, unfolding(crate::specs::Runner::turn_of, crate::specs::Runner::turn_by))]
pub fn turn(
    index: u64,
    s: Session,
    vcpus: &mut VcpuWords,
    pages: &mut PageWords,
    msg: &[u8],
    out: &mut [u8],
    guest: &mut [u8],
    text: &mut [u8; 128],
) -> Turned
    ensures text_after { turn_left result vcpus.new pages.new out.new guest.new text.new ≡
        turn_of index (state s vcpus.old pages.old) msg.now out.old guest.old text.old }
    ensures counts { Counts result.count text.new }
{
    match stream::cut_next(msg) {
        Cut::End => Turned {
            session: s,
            count: 0,
            end: Some(End::Open),
        },
        Cut::Long => Turned {
            session: s,
            count: 0,
            end: Some(End::Long),
        },
        Cut::Tail | Cut::Message { .. } => tell(index, s, vcpus, pages, msg, out, guest, text),
    }
}

// A run: its session and the session's words, the output that a message is given, and the guest's memory.
#[derive(Drop)]
pub struct Run {
    pub session: Session,
    pub vcpus: VcpuWords,
    pub pages: PageWords,
    pub out: [u8; 4112],
    pub guest: [u8; 16384],
}

impl Run {
    // A session whose two vCPUs are ready, on words of zeros, with the least output that a message is given and four zero pages of guest memory.
    pub fn new() -> Self
        ensures state { state result.session result.vcpus result.pages ≡
            start_of (replicate vcpu_word_count 0) (replicate page_word_count 0) }
        ensures out { result.out ≡ replicate 4112 0 }
        ensures guest { result.guest ≡ replicate 16384 0 }
    {
        let mut vcpus = [0; VCPU_WORDS];
        let mut pages = [0; PAGE_WORDS];
        let session = start(&mut vcpus, &mut pages);
        Run {
            session,
            vcpus,
            pages,
            out: [0; 4112],
            guest: [0; 16384],
        }
    }

    // One turn, after which the run goes on from the session that it leaves.
    pub fn turn(&mut self, index: u64, msg: &[u8], text: &mut [u8; 128]) -> Turned
        ensures text_after { turn_left result self.new.vcpus self.new.pages self.new.out self.new.guest text.new ≡
            turn_of index (state self.old.session self.old.vcpus self.old.pages) msg.now self.old.out self.old.guest text.old }
        ensures session { self.new.session ≡ result.session }
        ensures counts { Counts result.count text.new }
    {
        let turned = turn(
            index,
            self.session,
            &mut self.vcpus,
            &mut self.pages,
            msg,
            &mut self.out,
            &mut self.guest,
            text,
        );
        self.session = turned.session;
        turned
    }
}
