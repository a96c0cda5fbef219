// The call by which a vCPU enters the guest: an event that it is offered goes out if the tool asked for it, or else a queued pause.
#![tactic(auto)]

ghost use Rattle.std.specs.Prelude.{◌≡◌, List, [], ℕ, ◌≤◌, length};
ghost use Rattle.kvmi.specs.Bits.{is_on};
ghost use Rattle.kvmi.specs.Event.{offer_fits};
ghost use Rattle.store.specs.Words.{field, EVENTS};
ghost use Rattle.session.specs.State.{state};
ghost use Rattle.session.specs.Calls.{told};
ghost use Rattle.entry.specs.Entry.{is_guarded, is_asked_for_of, cr_bit_on, awaiting_words, fault_words, Went, sending_of, dequeuing_of, sent_of, entered_of, enter_of};

use kvmi::{Answer, EventSwitch, Fault, VIEWS};
use page_words::PageWords;
use session::{Done, Session, Tool};
use store::words::VcpuWords;

// How many bytes go out of an entry, and the next event's seq after them.
#[derive(Clone, Copy)]
struct HandedOut {
    count: usize,
    next: u32,
}

// An event that a vCPU is offered at its entry: its number (0: none) and its own bytes, which are few.
#[derive(Clone, Copy)]
struct Offer<'a> {
    event: u32,
    own: &'a [u8],
    ghost few: { length own.now ≤ 65535 },
}

// The least output that an entry is given: the bytes of a CR, an MSR or a page fault event.
pub const EVENT_OUT: usize = 576;

// Whether an event's number is one that can be offered, and its own bytes are as many as it has.
#[tactic(auto, unfolding(kvmi::specs::Event::offer_fits))]
fn offer_fits(event: u32, own: &[u8]) -> bool
    ensures { result ≡ offer_fits event own.now }
{
    let row = kvmi::events::row(event as u64);
    kvmi::events::is_offered(row.switch) & (own.len() == row.own)
}

// Whether a vCPU's switch for a control register is on; what has none is off.
#[tactic(auto, unfolding(crate::specs::Entry::cr_bit_on))]
fn cr_on(vcpus: &[u64], vcpu: u16, cr: u32) -> bool
    ensures { result ≡ cr_bit_on vcpus.now vcpu cr }
{
    if !tests::is_cr(cr) {
        return false;
    }
    let crs = store::words::read_field(vcpus, vcpu, store::words::CRS);
    kvmi::bits::is_on(crs, store::bits::cr_bit(cr))
}

// Whether the page that a fault's bytes name stands below rwx in the view that they name; `used` page words are in use.
#[tactic(auto, unfolding(crate::specs::Entry::is_guarded))]
fn is_guarded(pages: &[u64], used: u64, own: &[u8]) -> bool
    ensures { result ≡ is_guarded pages.now used own.now }
{
    let view = wire::load::<u16>(own, 18);
    if VIEWS <= view {
        return false;
    }
    let key = (view as u64) * kvmi::PAGES + wire::load::<u64>(own, 8) / 4096;
    page_words::word_access(pages, used as usize, key) < 7
}

// Whether an event is on among a vCPU's switches.
fn is_on_for(vcpus: &[u64], vcpu: u16, event: u32) -> bool
    ensures { result ≡ is_on (field vcpus.now vcpu EVENTS) event }
{
    kvmi::bits::is_on(
        store::words::read_field(vcpus, vcpu, store::words::EVENTS),
        event,
    )
}

// Whether the tool asked for an event: what its row names is on among the VM's switches or the vCPU's, and a page that it names is guarded.
#[tactic(auto, unfolding(crate::specs::Entry::is_asked_for_of, crate::specs::Entry::asked_for_by))]
fn is_asked_for(tool: Tool, vcpus: &[u64], pages: &[u64], vcpu: u16, offer: Offer<'_>) -> bool
    ensures { result ≡ is_asked_for_of tool vcpus.now pages.now vcpu offer.entry.event offer.entry.own.now }
{
    let event = offer.event;
    let own = offer.own;
    let Some(switch) = kvmi::events::row(event as u64).switch else {
        return false;
    };
    match switch {
        EventSwitch::NoEvent => false,
        EventSwitch::OfVm => kvmi::bits::is_on(tool.events, event),
        EventSwitch::OfVcpu => is_on_for(vcpus, vcpu, event),
        EventSwitch::OfCr => {
            let cr = u32::from(wire::load::<u16>(own, 0));
            is_on_for(vcpus, vcpu, event) & cr_on(vcpus, vcpu, cr)
        }
        EventSwitch::OfMsr => {
            let msr = wire::load::<u32>(own, 0);
            is_on_for(vcpus, vcpu, event) & store::words::read_msr(vcpus, vcpu, msr)
        }
        EventSwitch::OfPage => {
            is_on_for(vcpus, vcpu, event) && is_guarded(pages, tool.pages, own)
        }
    }
}

// The reply to an event is awaited.
#[tactic(auto, unfolding(crate::specs::Entry::awaiting_words))]
fn await_reply(vcpus: &mut [u64], vcpu: u16, event: u32, seq: u32)
    ensures { vcpus.new ≡ awaiting_words vcpus.old vcpu event seq }
{
    store::words::write_field(vcpus, vcpu, store::words::AWAITED, event as u64);
    store::words::write_field(vcpus, vcpu, store::words::AWAITED_SEQ, seq as u64);
}

// Of a page fault its addresses and access are kept until its reply comes.
#[tactic(auto, unfolding(crate::specs::Entry::fault_words, kvmi::specs::Feed::kept_of))]
fn keep_fault(vcpus: &mut [u64], vcpu: u16, offer: Offer<'_>)
    ensures { vcpus.new ≡ fault_words vcpus.old vcpu offer.entry.event offer.entry.own.now }
{
    let own = offer.own;
    if offer.event as u64 == kvmi::events::PF {
        let fault = Fault {
            gva: wire::load(own, 0),
            gpa: wire::load(own, 8),
            access: wire::byte(own, 16) as u64,
        };
        store::words::write_fault(vcpus, vcpu, fault);
    }
}

// The offered event goes out.
fn send(
    vcpus: &mut [u64],
    vcpu: u16,
    seq: u32,
    block: &[u8],
    offer: Offer<'_>,
    out: &mut [u8],
) -> HandedOut
    ensures { Went vcpus.new out.old out.new result (sending_of vcpus.old vcpu seq block.now offer.entry.event offer.entry.own.now) }
{
    // numbers that are offered are below 15
    let event = (offer.event % 256) as u8;
    reply::event(out, seq, vcpu as u32, event, block, offer.own);
    await_reply(vcpus, vcpu, offer.event, seq);
    keep_fault(vcpus, vcpu, offer);
    HandedOut {
        count: block.len() + offer.own.len() + 16,
        next: reply::next_seq(seq),
    }
}

// A queued pause goes out, if there is one.
fn dequeue(vcpus: &mut [u64], vcpu: u16, seq: u32, block: &[u8], out: &mut [u8]) -> HandedOut
    ensures { Went vcpus.new out.old out.new result (dequeuing_of vcpus.old vcpu seq block.now) }
{
    let queued = store::words::read_field(vcpus, vcpu, store::words::PAUSES);
    if queued == 0 {
        return HandedOut {
            count: 0,
            next: seq,
        };
    }
    let count = reply::pause_event(out, seq, vcpu as u32, block);
    store::words::write_field(vcpus, vcpu, store::words::PAUSES, queued - 1);
    await_reply(vcpus, vcpu, 2, seq);
    HandedOut {
        count,
        next: reply::next_seq(seq),
    }
}

// What goes out of an entry: the offered event, or else a queued pause.
#[tactic(auto, unfolding(crate::specs::Entry::sent_of))]
fn hand_out(
    s: Session,
    vcpus: &mut [u64],
    pages: &[u64],
    vcpu: u16,
    block: &[u8],
    offer: Offer<'_>,
    out: &mut [u8],
) -> HandedOut
    ensures { Went vcpus.new out.old out.new result (sent_of (state s vcpus.old pages.now) vcpu block.now offer.entry.event offer.entry.own.now) }
{
    let seq = s.tool.seq;
    let tool = s.tool;
    if is_asked_for(tool, vcpus, pages, vcpu, offer) {
        send(vcpus, vcpu, seq, block, offer, out)
    } else {
        dequeue(vcpus, vcpu, seq, block, out)
    }
}

// The rest of an entry whose arguments are in order.
#[tactic(auto, unfolding(crate::specs::Entry::entered_of))]
fn enter_open(
    s: Session,
    vcpus: &mut [u64],
    pages: &[u64],
    vcpu: u16,
    block: &[u8],
    offer: Offer<'_>,
    out: &mut [u8],
) -> Done
    ensures { told result vcpus.new pages.now out.new [] ≡ entered_of (state s vcpus.old pages.now) vcpu block.now offer.entry.event offer.entry.own.now out.old }
{
    let awaited = store::words::read_field(vcpus, vcpu, store::words::AWAITED);
    if awaited != 0 {
        return s.answers(Answer::Waiting);
    }
    let went = hand_out(s, vcpus, pages, vcpu, block, offer, out);
    s.with_seq(went.next)
        .answers(kvmi::answers::wrote(went.count))
}

// A vCPU enters the guest, with its register block. It is offered an event by its number (0: none), with the event's own bytes. The
// reply to what goes out is awaited. The number is no Option: `enter_of` takes it as C passes it.
#[tactic(auto, unfolding(crate::specs::Entry::enter_of))]
pub fn enter(
    s: Session,
    vcpus: &mut VcpuWords,
    pages: &PageWords,
    vcpu: u16,
    block: &[u8],
    event: u32,
    own: &[u8],
    out: &mut [u8],
) -> Done
    ensures { told result vcpus.new pages.now out.new [] ≡ enter_of (state s vcpus.old pages.now) vcpu block.now event own.now out.old }
{
    if s.tool.opened == 0 {
        return s.answers(Answer::Closed);
    }
    if s.settings.vcpus <= vcpu as u32 {
        return s.answers(Answer::BadVcpu);
    }
    if !((block.len() == reply::STATE_BYTES) & offer_fits(event, own)) {
        return s.answers(Answer::BadState);
    }
    if out.len() < EVENT_OUT {
        return s.answers(Answer::ShortOut);
    }
    let offer = Offer { event, own };
    enter_open(s, vcpus, pages, vcpu, block, offer, out)
}
