// What a message that passes its tests changes, in the session's numbers and in the lent words and bytes.
#![tactic(auto)]

ghost use Rattle.std.specs.Prelude.{◌≡◌, ◌||◌, ◌+◌, leb, ltb, eqb, drop};
ghost use Rattle.wire.specs.Bytes.{store};
ghost use Rattle.kvmi.specs.Limits.{page_limit};
ghost use Rattle.session.specs.State.{state};
ghost use Rattle.kvmi.specs.Change.{reply_signal};
ghost use Rattle.kvmi.specs.declared.ReplyKind.TheVariants.{CodeOnly};
ghost use Rattle.kvmi.specs.declared.Signal.TheVariants.{Quiet};
ghost use Rattle.change.specs.Effect.{enacted_of, effect, plain_effect, tool_after, pages_effect, pages_set, skips_one, held_back};

use kvmi::{Change, Feed, ReplyKind, Resumption, Signal};
use page_words::PageWords;
use session::{Session, Tool};

// The limit of pages, as a number of page words in use is written.
const PAGE_LIMIT: u64 = Session::PAGE_LIMIT as u64;

// The error of a page access that finds no room.
const ENOMEM: i32 = -12;

// Which number of the tool moves, and that number after it: its VM event switches, how many page words are in use, or its reply mode's number, which
// has 64 bits so that all three are kept in one register. (With a `ReplyMode` there a small command takes 9 instructions more, and with a u32 8.)
#[derive(Clone, Copy)]
pub enum Moved {
    Nothing,
    Events(u64),
    Pages(u64),
    Mode(u64),
}

// What a change gives: what kind of reply answers it, what it moves of the tool, the code of the reply (0 or the error that it met, a number, since it
// is what the reply's code field says), the number of the mode by which it is answered, and what the host is to do. The mode is a number as
// in the session, which C lends (`mode` of semblurick_session).
#[derive(Clone, Copy)]
pub struct Effect {
    pub kind: ReplyKind,
    pub code: i32,
    pub by: u32,
    pub moved: Moved,
    pub signal: Signal,
}

// What a tool owns after one of its numbers moved.
#[tactic(auto, unfolding(crate::specs::Effect::tool_after))]
pub fn tool_after(tool: Tool, moved: Moved) -> Tool
    ensures { result ≡ tool_after tool moved }
{
    match moved {
        Moved::Nothing => tool,
        Moved::Events(events) => Tool { events, ..tool },
        Moved::Pages(pages) => Tool { pages, ..tool },
        Moved::Mode(number) => Tool {
            mode: (number % 4294967296) as u32,
            ..tool
        },
    }
}

// No number of the tool moves. `mode` is the tool's.
fn still(kind: ReplyKind, mode: u32, signal: Signal) -> Effect
    ensures { result ≡ plain_effect kind mode signal }
{
    Effect {
        kind,
        moved: Moved::Nothing,
        code: 0,
        by: mode,
        signal,
    }
}

// No number of the tool moves, a code answers, and nothing for the host to do.
fn quiet(mode: u32) -> Effect
    ensures { result ≡ plain_effect CodeOnly mode Quiet }
{
    still(ReplyKind::CodeOnly, mode, Signal::Quiet)
}

// VM_WRITE_PHYSICAL: the bytes after the 16 that name the place, where all of them lie inside.
fn write_guest(guest: &mut [u8], gpa: u64, d: &[u8])
    ensures { guest.new ≡ store guest.old gpa (drop 16 d.now) }
{
    // by `behind`, every small command takes 7 instructions more
    if 16 <= d.len() {
        wire::copy(guest, gpa as usize, &d[16..]);
    }
}

// VM_SET_PAGE_ACCESS: its entries stand behind the first 8 bytes.
#[tactic(auto, unfolding(crate::specs::Effect::pages_set))]
fn set_pages(tool: Tool, pages: &mut [u64], view: u16, count: u16, d: &[u8]) -> Effect
    ensures { pages_effect result pages.new ≡ pages_set tool pages.old view count d.now }
{
    let used = tool.pages as usize;
    let entries = wire::behind(d, 8);
    let taken = page_words::put_entries(pages, used, Session::PAGE_LIMIT, view, count, entries);
    Effect {
        moved: Moved::Pages(taken.count as u64),
        code: if taken.skipped { ENOMEM } else { 0 },
        ..quiet(tool.mode)
    }
}

// Whether page access is all or nothing: in revision 2.
fn is_all_or_nothing(revision: u32) -> bool
    ensures { result ≡ eqb revision 2 }
{
    revision == 2
}

// Whether n entries find room, whatever they ask, where so many page words are in use.
fn has_room_for(used: u64, n: u16) -> bool
    ensures { result ≡ leb (used + n) page_limit }
{
    u64::from(n) <= PAGE_LIMIT && used <= PAGE_LIMIT - u64::from(n)
}

// Whether a run of n entries of which one is skipped can change something: a single one cannot, unless more words are said to be in use than there
// are, which a run sets right.
fn can_change(used: u64, n: u16) -> bool
    ensures { result ≡ (ltb page_limit used || ltb 1 n) }
{
    PAGE_LIMIT < used || 1 < n
}

// Whether an entry of VM_SET_PAGE_ACCESS would be skipped.
fn would_skip(pages: &PageWords, used: u64, view: u16, count: u16, d: &[u8]) -> bool
    ensures { result ≡ skips_one pages.now used view count d.now }
{
    page_words::would_skip(
        pages,
        used as usize,
        Session::PAGE_LIMIT,
        view,
        count,
        wire::behind(d, 8),
    )
}

// VM_SET_PAGE_ACCESS with an entry that would be skipped, where it is all or nothing: no page changes.
fn hold_back(tool: Tool) -> Effect
    ensures { result ≡ held_back tool }
{
    Effect {
        moved: Moved::Pages(tool.pages),
        code: ENOMEM,
        ..quiet(tool.mode)
    }
}

// What an event's reply has the host do.
fn reply_signal(resumes: bool, vcpu: u16, action: u32, value: u64, feed: Feed) -> Signal
    ensures { result ≡ reply_signal resumes vcpu action value feed }
{
    if action == 2 {
        Signal::Crash { vcpu }
    } else if resumes {
        Signal::Resume(Resumption {
            vcpu,
            action,
            value,
            feed,
        })
    } else {
        Signal::Quiet
    }
}

// A change on what the tool owns and on the lent words; of all else nothing changes.
#[tactic(auto, unfolding(crate::specs::Change::change, crate::specs::Effect::tool_after, store::specs::Words::put_bit64, store::specs::Words::queued_pause, store::specs::Words::switched_field, store::specs::Words::switched_cr, store::specs::Words::ended_wait))]
pub fn apply(
    s: Session,
    vcpus: &mut [u64],
    pages: &mut PageWords,
    guest: &mut [u8],
    d: &[u8],
    c: Change,
) -> Effect
    ensures { effect s result vcpus.new pages.new guest.new ≡
        enacted_of (state s vcpus.old pages.old) guest.old d.now c }
{
    let tool = s.tool;
    match c {
        Change::Nothing => still(ReplyKind::WithData, tool.mode, Signal::Quiet),
        Change::SetVmEvent { on, event } => {
            let events = store::bits::put_bit(tool.events, event as u32, on);
            Effect {
                moved: Moved::Events(events),
                ..quiet(tool.mode)
            }
        }
        Change::WritePhysical { gpa } => {
            write_guest(guest, gpa, d);
            quiet(tool.mode)
        }
        Change::QueuePause { wait, vcpu } => {
            store::words::queue_pause(vcpus, vcpu);
            still(ReplyKind::CodeOnly, tool.mode, Signal::Kick { wait, vcpu })
        }
        Change::SetVcpuEvent { on, vcpu, event } => {
            store::words::switch_field(vcpus, vcpu, store::words::EVENTS, event, on);
            quiet(tool.mode)
        }
        Change::SetCr { on, vcpu, cr } => {
            store::words::switch_cr(vcpus, vcpu, cr, on);
            quiet(tool.mode)
        }
        Change::SetMsr { on, vcpu, msr } => {
            store::words::write_msr(vcpus, vcpu, msr, on);
            quiet(tool.mode)
        }
        // The tests stand here, and each by itself: so the compiler takes what they guard for rare, and leaves it and its copy of the words out
        // of the code that every message runs.
        Change::SetPages { view, count } => {
            if !has_room_for(tool.pages, count) {
                if can_change(tool.pages, count) {
                    if is_all_or_nothing(s.settings.revision) {
                        if would_skip(pages, tool.pages, view, count, d) {
                            return hold_back(tool);
                        }
                    }
                }
            }
            set_pages(tool, pages, view, count, d)
        }
        Change::SetSinglestep { on, vcpu } => {
            store::words::write_field(vcpus, vcpu, store::words::SINGLESTEP, on as u64);
            quiet(tool.mode)
        }
        Change::SetReplies { now, mode } => {
            let number = u32::from(mode);
            Effect {
                moved: Moved::Mode(u64::from(number)),
                by: if now { number } else { tool.mode },
                ..quiet(tool.mode)
            }
        }
        Change::EndWait {
            resumes,
            vcpu,
            action,
            value,
            feed,
        } => {
            store::words::end_wait(vcpus, vcpu);
            let signal = reply_signal(resumes, vcpu, action, value, feed);
            still(ReplyKind::Silent, tool.mode, signal)
        }
    }
}
