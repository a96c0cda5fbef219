// The call that takes one message of the tool: header, tests, change, answer.
#![tactic(auto)]

ghost use Rattle.std.specs.Prelude.{◌≡◌, List, ℕ, ◌≤◌};
ghost use Rattle.session.specs.declared.Session.{Session};
ghost use Rattle.session.specs.State.{state};
ghost use Rattle.session.specs.Calls.{told, told_closing};
ghost use Rattle.kvmi.specs.Mode.{mode_of_number};
ghost use Rattle.reply.specs.Off.{tells};
ghost use Rattle.message.specs.Message.{message_of, failed_of, handled_of};
ghost use Rattle.message.specs.Moves.{and_seq, handled_move, message_move, session_after, done_by};
ghost use Rattle.message.specs.declared.After.TheVariants.{Same, Closed};
ghost use Rattle.change.specs.declared.Moved.TheVariants.{Nothing};

use change::Moved;
use kvmi::{Answer, ReplyMode, Verdict};
use page_words::PageWords;
use reply::Answering;
use session::{Done, Session};
use store::words::VcpuWords;
use verdict::Asked;
use wire::Header;

// What a message moved of the session: nothing; all of it, since it closed; or a number of the tool, the next event's seq that a CMD_ERROR event took,
// or both.
#[derive(Clone, Copy)]
pub enum After {
    Same,
    Closed,
    Changed { took_seq: bool, moved: Moved },
}

// What a message gives: its answer, and what it moved.
#[derive(Clone, Copy)]
pub struct Received {
    pub answer: Answer,
    pub after: After,
}

// The session after what a message moved.
#[tactic(auto, unfolding(crate::specs::Moves::session_after))]
pub fn session_after(s: Session, after: After) -> Session
    ensures { result ≡ session_after s after }
{
    match after {
        After::Same => s,
        After::Closed => Session::shut(s.settings),
        After::Changed { took_seq, moved } => {
            let mut tool = change::tool_after(s.tool, moved);
            if took_seq {
                tool.seq = reply::next_seq(tool.seq);
            }
            s.with_tool(tool)
        }
    }
}

// An answer, and nothing moved.
fn unmoved(answer: Answer) -> Received
    ensures { (result.answer ≡ answer) × (result.after ≡ Same) }
{
    Received {
        answer,
        after: After::Same,
    }
}

// The session closes: the words that were lent are cleared.
fn close(vcpus: &mut [u64], pages: &mut [u64]) -> Received
    ensures result_value { result.after ≡ Closed }
    ensures guest_after { (s : Session) (out guest : List ℕ) → told (done_by s result) vcpus.new pages.new out guest
        ≡ told_closing (state s vcpus.old pages.old) out guest }
{
    store::words::clear(vcpus);
    store::words::clear(pages);
    Received {
        answer: Answer::Closing,
        after: After::Closed,
    }
}

// What moved, with the seq that an answer took.
fn and_seq(moved: Moved, took_seq: bool) -> After
    ensures { result ≡ and_seq moved took_seq }
{
    if !took_seq && matches!(moved, Moved::Nothing) {
        return After::Same;
    }
    After::Changed { took_seq, moved }
}

// A command that fails is answered by its code, and changes nothing; its answer says which padding byte was not zero, if one was.
fn fail(s: Session, out: &mut [u8], id: u16, seq: u32, code: i32, padding: usize) -> Received
    ensures result_value { result.after ≡ and_seq Nothing (tells (mode_of_number s.tool.mode) code) }
    ensures by_index { (v p guest : List ℕ) → told (done_by s result) v p out.new guest ≡ failed_of (state s v p) id seq code padding out.old guest }
{
    let answering = Answering {
        mode: s.tool.mode,
        next: s.tool.seq,
        id,
        seq,
        code,
    };
    let a = reply::answer_code(out, answering);
    Received {
        answer: kvmi::answers::failed(a.count, padding),
        after: and_seq(Moved::Nothing, a.took_seq),
    }
}

// A message with a whole header: the tests, and what follows from them.
fn handle(
    s: Session,
    vcpus: &mut [u64],
    pages: &mut PageWords,
    id: u16,
    seq: u32,
    d: &[u8],
    out: &mut [u8],
    guest: &mut [u8],
) -> Received
    ensures result_value { result.after ≡ handled_move (state s vcpus.old pages.old) id seq d.now guest.old }
    ensures guest_after { told (done_by s result) vcpus.new pages.new out.new guest.new ≡
        handled_of (state s vcpus.old pages.old) id seq d.now out.old guest.old }
{
    let settings = s.settings;
    let tool = s.tool;
    let asked = Asked {
        settings,
        mode: ReplyMode::from(tool.mode),
        guest: guest.len(),
        ready: s.shared.ready,
    };
    let judged = verdict::judge(asked, vcpus, id, seq, d);
    let v = judged.verdict;
    let e = match v {
        Verdict::Closes => return close(vcpus, pages),
        Verdict::Fails(code) => return fail(s, out, id, seq, code, judged.padding),
        Verdict::Does(c) => change::apply(s, vcpus, pages, guest, d, c),
    };
    let kind = e.kind;
    let answering = Answering {
        mode: e.by,
        next: tool.seq,
        id,
        seq,
        code: e.code,
    };
    let a = reply::answer(out, settings, guest, kind, answering, d);
    let signal = e.signal;
    Received {
        answer: kvmi::answers::signalled(a.count, signal),
        after: and_seq(e.moved, a.took_seq),
    }
}

// One message of the tool, header included: its answer, and what it moves of the session.
pub fn receive(
    s: Session,
    vcpus: &mut VcpuWords,
    pages: &mut PageWords,
    msg: &[u8],
    out: &mut [u8],
    guest: &mut [u8],
) -> Received
    ensures result_value { result.after ≡ message_move (state s vcpus.old pages.old) msg.now out.old guest.old }
    ensures guest_after { told (done_by s result) vcpus.new pages.new out.new guest.new ≡
        message_of (state s vcpus.old pages.old) msg.now out.old guest.old }
{
    if s.tool.opened == 0 {
        return unmoved(Answer::Closed);
    }
    if Session::is_short(out.len()) {
        return unmoved(Answer::ShortOut);
    }
    let Some(Header { id, seq, .. }) = wire::read_header(msg) else {
        return close(vcpus, pages);
    };
    let d = &msg[8..];
    handle(s, vcpus, pages, id, seq, d, out, guest)
}

// The same with the session after it.
pub fn take(
    s: Session,
    vcpus: &mut VcpuWords,
    pages: &mut PageWords,
    msg: &[u8],
    out: &mut [u8],
    guest: &mut [u8],
) -> Done
    ensures { told result vcpus.new pages.new out.new guest.new ≡
        message_of (state s vcpus.old pages.old) msg.now out.old guest.old }
{
    let r = receive(s, vcpus, pages, msg, out, guest);
    session_after(s, r.after).answers(r.answer)
}
