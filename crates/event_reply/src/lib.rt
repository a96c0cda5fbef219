// EVENT_REPLY: whether it is the reply that its vCPU awaits, and what it says. It takes any data.
#![tactic(auto)]

ghost use Rattle.std.specs.Prelude.{◌≡◌, ◌&&◌, eqb, length};
ghost use Rattle.kvmi.specs.Message.{action_of};
ghost use Rattle.kvmi.specs.Event.{takes_action, value_of};
ghost use Rattle.kvmi.specs.Verdict.{is_awaited, reply_fits, feed_by, event_reply_verdict};

use kvmi::{Awaited, Change, EventRow, Facts, Fault, Feed, ReplyForm, Verdict};

// Whether a reply is the one to an awaited event; 0 is none.
fn is_awaited(awaited: Awaited, seq: u32, event: u8) -> bool
    ensures { result ≡ is_awaited awaited seq event }
{
    awaited.event != 0 && awaited.seq == seq as u64 && awaited.event == event as u64
}

// Whether a reply has the size of the awaited event's, and an action that it takes.
fn action_fits(row: EventRow, d: &[u8]) -> bool
    ensures { result ≡ (eqb (length d.now) row.reply && takes_action row (action_of d.now)) }
{
    let action = wire::byte(d, 8);
    d.len() == row.reply
        && match action {
            0 | 2 => true,
            1 => row.retry,
            _ => false,
        }
}

// Whether a reply is as the awaited event's row says. What it has behind its first 16 bytes is asked in an arm of its own, so that the others know that
// there is nothing to ask.
fn reply_fits(row: EventRow, d: &[u8]) -> bool
    ensures { result ≡ reply_fits row d.now }
{
    match row.form {
        ReplyForm::Plain | ReplyForm::NewValue => action_fits(row, d),
        ReplyForm::Context => action_fits(row, d) && feed::context_fits(d),
    }
}

// The value of a resume: a register's new value, or a page fault's rep flag, or 0.
fn value_of(form: ReplyForm, d: &[u8]) -> u64
    ensures { result ≡ value_of form d.now }
{
    match form {
        ReplyForm::Plain => 0,
        ReplyForm::NewValue => wire::load::<u64>(d, 16),
        ReplyForm::Context => wire::byte(d, 29) as u64,
    }
}

// The bytes that a reply feeds.
fn feed_by(form: ReplyForm, fault: Fault, guest: usize, d: &[u8]) -> Feed
    ensures { result ≡ feed_by form fault guest d.now }
{
    match form {
        ReplyForm::Plain | ReplyForm::NewValue => kvmi::answers::unfed(),
        ReplyForm::Context => {
            if feed::wants_bytes(fault.access, wire::byte(d, 8)) {
                feed::chosen_feed(fault.gva, fault.gpa, guest, d)
            } else {
                kvmi::answers::unfed()
            }
        }
    }
}

// EVENT_REPLY never fails: it closes the session unless all of it is as it should be.
pub fn judge_reply(facts: Facts, seq: u32, d: &[u8]) -> Verdict
    ensures { result ≡ event_reply_verdict facts seq d.now }
{
    let Some(awaited) = facts.pending.awaited else {
        return Verdict::Closes;
    };
    if padding::of_event_reply(d) != 0 {
        return Verdict::Closes;
    }
    if !is_awaited(awaited, seq, wire::byte(d, 9)) {
        return Verdict::Closes;
    }
    let row = kvmi::events::row(awaited.event);
    if !reply_fits(row, d) {
        return Verdict::Closes;
    }
    let form = row.form;
    Verdict::Does(Change::EndWait {
        resumes: awaited.event != 2,
        vcpu: wire::load::<u16>(d, 0),
        action: wire::byte(d, 8) as u32,
        value: value_of(form, d),
        feed: feed_by(form, awaited.fault, facts.guest, d),
    })
}
