// Test 6 for each command on the VM: its causes of error, and its change. Every function takes any data. Those whose message has padding are handed what
// the padding test found: the message offset of the first byte that is not zero, or 0. Each command has a function of its own, also where two differ
// little: its message's number is in its promise, and one function for two of them would be handed each test that they do not share.
#![tactic(auto)]

ghost use Rattle.std.specs.Prelude.{◌≡◌};
ghost use Rattle.kvmi.specs.Verdict.{command_verdict, command_verdict_by};
ghost use Rattle.vm_commands.specs.Physical.{physical_causes};

use causes::Causes;
use kvmi::{Change, Facts, Settings, Verdict};

// VM_CHECK_COMMAND: 0 where a command is allowed.
pub fn check_command(settings: Settings, facts: Facts, padding: usize, d: &[u8]) -> Verdict
    ensures { result ≡ command_verdict_by padding settings facts 2 d.now }
{
    let id = wire::load::<u16>(d, 0);
    let invalid = (padding != 0) | !tests::is_command(id);
    let c = Causes {
        denied: !tests::allows_command(settings.commands, id),
        ..Causes::new(invalid, false)
    };
    c.decide(Change::Nothing)
}

// VM_CHECK_EVENT: 0 where an event is allowed.
pub fn check_event(settings: Settings, facts: Facts, padding: usize, d: &[u8]) -> Verdict
    ensures { result ≡ command_verdict_by padding settings facts 3 d.now }
{
    let event = wire::load::<u16>(d, 0);
    let invalid = (padding != 0) | !tests::is_event(event);
    let c = Causes {
        denied: !tests::allows_event(settings.events, event),
        ..Causes::new(invalid, false)
    };
    c.decide(Change::Nothing)
}

// VM_CONTROL_EVENTS.
pub fn control_vm_events(settings: Settings, facts: Facts, padding: usize, d: &[u8]) -> Verdict
    ensures { result ≡ command_verdict_by padding settings facts 5 d.now }
{
    let event = wire::load::<u16>(d, 0);
    let enable = wire::byte(d, 2);
    let malformed = (padding != 0) | !tests::is_switch(enable);
    let c = Causes {
        denied: !tests::allows_event(settings.events, event),
        ..Causes::new(malformed | !tests::is_vm_event(event), false)
    };
    c.decide(Change::SetVmEvent {
        event,
        on: enable == 1,
    })
}

// What stands against reading or writing guest memory.
fn physical(guest: usize, gpa: u64, size: u64) -> Causes
    ensures { result ≡ physical_causes guest gpa size }
{
    Causes {
        absent: !tests::page_exists(guest, gpa),
        ..Causes::new(!tests::in_one_page(gpa, size), false)
    }
}

// VM_READ_PHYSICAL.
pub fn read_physical(settings: Settings, facts: Facts, d: &[u8]) -> Verdict
    ensures { result ≡ command_verdict settings facts 6 d.now }
{
    let c = physical(facts.guest, wire::load(d, 0), wire::load(d, 8));
    c.decide(Change::Nothing)
}

// VM_WRITE_PHYSICAL. It is put into `judge`, as the others are by themselves.
#[inline(always)]
pub fn write_physical(settings: Settings, facts: Facts, d: &[u8]) -> Verdict
    ensures { result ≡ command_verdict settings facts 7 d.now }
{
    let gpa = wire::load::<u64>(d, 0);
    let c = physical(facts.guest, gpa, wire::load(d, 8));
    c.decide(Change::WritePhysical { gpa })
}

// VM_SET_PAGE_ACCESS.
pub fn set_page_access(settings: Settings, facts: Facts, padding: usize, d: &[u8]) -> Verdict
    ensures { result ≡ command_verdict_by padding settings facts 13 d.now }
{
    let count = wire::load::<u16>(d, 0);
    let view = wire::load::<u16>(d, 2);
    let malformed = (padding != 0) | (settings.views <= view as u32);
    let c = Causes::new(
        malformed | !padding::entries::entries_fit(settings, d),
        false,
    );
    c.decide(Change::SetPages { view, count })
}

// VM_CONTROL_CMD_RESPONSE. Errors that no reply tells go to event 13: without it they would be lost, and the session closes.
pub fn control_replies(settings: Settings, facts: Facts, padding: usize, d: &[u8]) -> Verdict
    ensures { result ≡ command_verdict_by padding settings facts 15 d.now }
{
    let enable = wire::byte(d, 0);
    let now = wire::byte(d, 1);
    let flag = wire::byte(d, 2);
    let switches = tests::is_switch(enable) & (tests::is_switch(now) & tests::is_switch(flag));
    let c = Causes {
        closing: (enable != 1) & (flag == 1) & !tests::allows_event(settings.events, 13),
        ..Causes::new((padding != 0) | !switches, false)
    };
    let mode = tests::mode_from(enable == 1, flag == 1);
    c.decide(Change::SetReplies {
        mode,
        now: now == 1,
    })
}
