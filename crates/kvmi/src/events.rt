// The table of events: the one `match` on their numbers.
ghost use Rattle.std.specs.Prelude.{◌≡◌, false};
ghost use Rattle.kvmi.specs.declared.ReplyForm.TheVariants.{Plain};
ghost use Rattle.kvmi.specs.Event.{event_row, event_row_of, is_offered};

use crate::{EventRow, EventSwitch, ReplyForm};

// The number of a page fault, KVMI_EVENT_PF.
pub const PF: u64 = 10;

fn row_of(
    own: usize,
    reply: usize,
    retry: bool,
    form: ReplyForm,
    switch: Option<EventSwitch>,
) -> EventRow
    ensures { result ≡ event_row own reply retry form switch }
{
    EventRow {
        switch,
        form,
        retry,
        own,
        reply,
    }
}

// The row of an event whose reply has 16 data bytes, and is no retry.
fn plain(own: usize, switch: Option<EventSwitch>) -> EventRow
    ensures { result ≡ event_row own 16 false Plain switch }
{
    row_of(own, 16, false, ReplyForm::Plain, switch)
}

// The row of an event's number; one that is not offered has a row too.
#[tactic(auto, unfolding(crate::specs::Event::event_row_of))]
pub fn row(event: u64) -> EventRow
    ensures { result ≡ event_row_of event }
{
    match event {
        0 => row_of(0, 0, false, ReplyForm::Plain, Some(EventSwitch::NoEvent)),
        2 => plain(0, None),
        3 => plain(0, Some(EventSwitch::OfVcpu)),
        4 => row_of(16, 16, true, ReplyForm::Plain, Some(EventSwitch::OfVcpu)),
        5 => row_of(24, 24, false, ReplyForm::NewValue, Some(EventSwitch::OfCr)),
        7 => plain(0, Some(EventSwitch::OfVcpu)),
        8 => row_of(8, 16, true, ReplyForm::Plain, Some(EventSwitch::OfVcpu)),
        9 => row_of(24, 24, false, ReplyForm::NewValue, Some(EventSwitch::OfMsr)),
        10 => row_of(24, 288, true, ReplyForm::Context, Some(EventSwitch::OfPage)),
        11 => plain(8, Some(EventSwitch::OfVcpu)),
        12 => plain(0, Some(EventSwitch::OfVm)),
        14 => plain(16, Some(EventSwitch::OfVcpu)),
        _ => row_of(0, 0, false, ReplyForm::Plain, None),
    }
}

// Whether an entry is offered an event with such a switch; none is an offer, too.
pub fn is_offered(switch: Option<EventSwitch>) -> bool
    ensures { result ≡ is_offered switch }
{
    switch.is_some()
}
