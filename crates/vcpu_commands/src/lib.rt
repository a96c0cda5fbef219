// Tests 5 and 6 for each command on a vCPU: its causes of error, and its change. Every function takes any data, and what the padding test found in it:
// the message offset of the first byte that is not zero, or 0. VCPU_PAUSE may close before that test, and so makes it itself.
// In messages 9 to 12 each cause is a test of its own, and the change is made behind the last: the compiler makes more of that than of a change that is
// handed to `decide`. The ready mark is branched on first, and `causes::unready` keeps EINVAL before EAGAIN.
#![tactic(auto)]

ghost use Rattle.std.specs.Prelude.{◌≡◌, cond, not};
ghost use Rattle.kvmi.specs.Settings.{allows_event};
ghost use Rattle.kvmi.specs.Verdict.{judgement, command_verdict_by, command_judgement};

use causes::Causes;
use kvmi::{Change, Facts, Judgement, Settings, Verdict};
use session::Session;

// VCPU_GET_INFO.
pub fn get_vcpu_info(settings: Settings, facts: Facts, padding: usize, d: &[u8]) -> Verdict
    ensures { result ≡ command_verdict_by padding settings facts 8 d.now }
{
    let vcpu = wire::load::<u16>(d, 0);
    let invalid = (padding != 0) | (settings.vcpus <= vcpu as u32);
    Causes::new(invalid, !facts.ready).decide(Change::Nothing)
}

// VCPU_PAUSE: at most 8 wait.
fn pause_vcpu(settings: Settings, facts: Facts, padding: usize, d: &[u8]) -> Verdict
    ensures { result ≡ command_verdict_by padding settings facts 9 d.now }
{
    let vcpu = wire::load::<u16>(d, 0);
    let wait = wire::byte(d, 8);
    let malformed = tests::is_malformed(padding, settings.vcpus, vcpu, wait);
    if !facts.ready {
        return causes::unready(malformed);
    }
    if malformed {
        return Verdict::Fails(causes::EINVAL);
    }
    if Session::is_full(facts.pending.pauses) {
        return Verdict::Fails(causes::EBUSY);
    }
    Verdict::Does(Change::QueuePause {
        vcpu,
        wait: wait == 1,
    })
}

// VCPU_PAUSE closes where its event is not allowed: nothing could tell that the vCPU paused.
pub fn pause(settings: Settings, facts: Facts, d: &[u8]) -> Judgement
    ensures { result ≡ cond (not (allows_event settings 2)) (judgement Verdict.Closes 0) (command_judgement settings facts 9 d.now) }
{
    if tests::allows_event(settings.events, 2) {
        let padding = padding::of_vcpu_switch(d);
        let verdict = pause_vcpu(settings, facts, padding, d);
        return Judgement { verdict, padding };
    }
    Judgement {
        verdict: Verdict::Closes,
        padding: 0,
    }
}

// VCPU_CONTROL_EVENTS. Only switching an event on can be unsupported, or busy.
pub fn control_vcpu_events(settings: Settings, facts: Facts, padding: usize, d: &[u8]) -> Verdict
    ensures { result ≡ command_verdict_by padding settings facts 10 d.now }
{
    let vcpu = wire::load::<u16>(d, 0);
    let event = wire::load::<u16>(d, 8);
    let enable = wire::byte(d, 10);
    let on = enable == 1;
    let malformed = tests::is_malformed(padding, settings.vcpus, vcpu, enable);
    let invalid = malformed | !tests::is_vcpu_event(event);
    if !facts.ready {
        return causes::unready(invalid);
    }
    if invalid {
        return Verdict::Fails(causes::EINVAL);
    }
    if !tests::allows_event(settings.events, event) {
        return Verdict::Fails(causes::EPERM);
    }
    if on & ((event == 8) & !tests::is_set(settings.descriptors)) {
        return Verdict::Fails(causes::EOPNOTSUPP);
    }
    if on & ((event == 4) & tests::is_set(settings.breakpoints)) {
        return Verdict::Fails(causes::EBUSY);
    }
    Verdict::Does(Change::SetVcpuEvent {
        vcpu,
        event: event as u32,
        on,
    })
}

// VCPU_CONTROL_CR.
pub fn control_cr(settings: Settings, facts: Facts, padding: usize, d: &[u8]) -> Verdict
    ensures { result ≡ command_verdict_by padding settings facts 11 d.now }
{
    let vcpu = wire::load::<u16>(d, 0);
    let enable = wire::byte(d, 8);
    let cr = wire::load::<u32>(d, 12);
    let malformed = tests::is_malformed(padding, settings.vcpus, vcpu, enable);
    let invalid = malformed | !tests::is_cr(cr);
    if !facts.ready {
        return causes::unready(invalid);
    }
    if invalid {
        return Verdict::Fails(causes::EINVAL);
    }
    Verdict::Does(Change::SetCr {
        vcpu,
        cr,
        on: enable == 1,
    })
}

// VCPU_CONTROL_MSR.
pub fn control_msr(settings: Settings, facts: Facts, padding: usize, d: &[u8]) -> Verdict
    ensures { result ≡ command_verdict_by padding settings facts 12 d.now }
{
    let vcpu = wire::load::<u16>(d, 0);
    let enable = wire::byte(d, 8);
    let msr = wire::load::<u32>(d, 12);
    let malformed = tests::is_malformed(padding, settings.vcpus, vcpu, enable);
    let invalid = malformed | !msrs::is_msr(msr);
    if !facts.ready {
        return causes::unready(invalid);
    }
    if invalid {
        return Verdict::Fails(causes::EINVAL);
    }
    Verdict::Does(Change::SetMsr {
        vcpu,
        msr,
        on: enable == 1,
    })
}

// VCPU_CONTROL_SINGLESTEP.
pub fn control_singlestep(settings: Settings, facts: Facts, padding: usize, d: &[u8]) -> Verdict
    ensures { result ≡ command_verdict_by padding settings facts 14 d.now }
{
    let vcpu = wire::load::<u16>(d, 0);
    let enable = wire::byte(d, 8);
    let malformed = tests::is_malformed(padding, settings.vcpus, vcpu, enable);
    let c = Causes {
        unsupported: !tests::is_set(settings.singlestep),
        ..Causes::new(malformed, !facts.ready)
    };
    c.decide(Change::SetSinglestep {
        vcpu,
        on: enable == 1,
    })
}
