// What document 01's tests say of a message whose header is whole: it closes the session, it fails with an error code, or it makes
// one change; and which padding byte was not zero. `judge` asks the table of messages once, and goes by its row.
#![tactic(auto)]

ghost use Rattle.std.specs.Prelude.{◌≡◌};
ghost use Rattle.kvmi.specs.Verdict.{refuse, verdict, judgement, reported_padding};
ghost use Rattle.verdict.specs.Handlers.{facts_for, passes_row, refusal};

use kvmi::{Change, Facts, Handler, Judgement, Layout, ReplyMode, Settings, Verdict};

// What the tests ask of a session: its settings and reply mode, how many bytes of guest memory are lent, and the ready marks, bit i for vCPU i.
#[derive(Clone, Copy)]
pub struct Asked {
    pub settings: Settings,
    pub mode: ReplyMode,
    pub guest: usize,
    pub ready: u64,
}

// An error before the data is looked at: with replies off there is nobody to tell, and the session closes.
fn refuse(mode: ReplyMode, code: i32) -> Verdict
    ensures { result ≡ refuse mode code }
{
    if tests::replies_on(mode) {
        return Verdict::Fails(code);
    }
    Verdict::Closes
}

// Whether a message that has a row passes tests 2 to 4.
fn passes(a: Asked, id: u16, row: Layout, d: &[u8]) -> bool
    ensures { result ≡ passes_row a row id d.now }
{
    if !tests::allows_command(a.settings.commands, id) {
        return false;
    }
    let mode = a.mode;
    let reply = row.reply;
    if !tests::replies_on(mode) & tests::carries_data(reply) {
        return false;
    }
    let size = row.size;
    tests::size_fits(size, d)
}

// What it gets if it does not.
fn refused(a: Asked, id: u16) -> Verdict
    ensures { result ≡ refusal a id }
{
    let mode = a.mode;
    if !tests::allows_command(a.settings.commands, id) {
        return refuse(mode, causes::EPERM);
    }
    Verdict::Closes
}

// A verdict where test 6 was not reached, or the message has no padding.
fn unreported(verdict: Verdict) -> Judgement
    ensures { result ≡ judgement verdict 0 }
{
    Judgement {
        verdict,
        padding: 0,
    }
}

// What tests 5 and 6 ask, for the vCPU that a message names. It is put into each arm of `judge`, so that the arm reads what it asks for alone: behind the test
// for an id without a row the compiler takes the arms for seldom, and would call it, which costs a small command 20 instructions.
#[inline(always)]
fn facts_of(a: Asked, vcpus: &[u64], d: &[u8]) -> Facts
    ensures { result ≡ facts_for a vcpus.now d.now }
{
    let vcpu = wire::load::<u16>(d, 0);
    let mode = a.mode;
    Facts {
        mode,
        guest: a.guest,
        ready: kvmi::bits::is_on(a.ready, vcpu as u32),
        pending: store::words::read_pending(vcpus, vcpu),
    }
}

// Tests 2 to 6, in their order. The `match` comes first and the tests of the row stand in its arms, so that the compiler makes one jump of
// the table and the `match`, and each arm knows its row and reads those facts alone that it asks for. (As guards of the arms they cost a small command
// up to 43 instructions more.) Data of a fixed size goes on as a
// part of that length, so that no load tests the length again. The padding test is made here, but for VCPU_PAUSE and EVENT_REPLY,
// and what it finds goes to the command and into the answer.
pub fn judge(a: Asked, vcpus: &[u64], id: u16, seq: u32, d: &[u8]) -> Judgement
    ensures { result ≡ judgement (verdict a.settings (facts_for a vcpus.now d.now) id seq d.now)
        (reported_padding a.settings a.mode id d.now) }
{
    let settings = a.settings;
    let Some(row) = kvmi::table::layout(id) else {
        return unreported(refuse(a.mode, causes::ENOSYS));
    };
    match row.handler {
        Handler::GetVersion => {
            if passes(a, id, row, d) {
                return unreported(Verdict::Does(Change::Nothing));
            }
        }
        Handler::VmCheckCommand => {
            if passes(a, id, row, d) {
                let facts = facts_of(a, vcpus, d);
                let padding = padding::of_number(&d[..8]);
                let verdict = vm_commands::check_command(settings, facts, padding, &d[..8]);
                return Judgement { verdict, padding };
            }
        }
        Handler::VmCheckEvent => {
            if passes(a, id, row, d) {
                let facts = facts_of(a, vcpus, d);
                let padding = padding::of_number(&d[..8]);
                let verdict = vm_commands::check_event(settings, facts, padding, &d[..8]);
                return Judgement { verdict, padding };
            }
        }
        Handler::VmGetInfo => {
            if passes(a, id, row, d) {
                return unreported(Verdict::Does(Change::Nothing));
            }
        }
        Handler::VmControlEvents => {
            if passes(a, id, row, d) {
                let facts = facts_of(a, vcpus, d);
                let padding = padding::of_switch(&d[..8]);
                let verdict = vm_commands::control_vm_events(settings, facts, padding, &d[..8]);
                return Judgement { verdict, padding };
            }
        }
        Handler::VmReadPhysical => {
            if passes(a, id, row, d) {
                return unreported(vm_commands::read_physical(
                    settings,
                    facts_of(a, vcpus, d),
                    &d[..16],
                ));
            }
        }
        Handler::VmWritePhysical => {
            if passes(a, id, row, d) {
                return unreported(vm_commands::write_physical(settings, facts_of(a, vcpus, d), d));
            }
        }
        Handler::VcpuGetInfo => {
            if passes(a, id, row, d) {
                let facts = facts_of(a, vcpus, d);
                let padding = padding::of_number(&d[..8]);
                let verdict = vcpu_commands::get_vcpu_info(settings, facts, padding, &d[..8]);
                return Judgement { verdict, padding };
            }
        }
        Handler::VcpuPause => {
            if passes(a, id, row, d) {
                return vcpu_commands::pause(settings, facts_of(a, vcpus, d), &d[..16]);
            }
        }
        Handler::VcpuControlEvents => {
            if passes(a, id, row, d) {
                let facts = facts_of(a, vcpus, d);
                let padding = padding::of_vcpu_event(&d[..16]);
                let verdict = vcpu_commands::control_vcpu_events(
                    settings,
                    facts,
                    padding,
                    &d[..16],
                );
                return Judgement { verdict, padding };
            }
        }
        Handler::VcpuControlCr => {
            if passes(a, id, row, d) {
                let facts = facts_of(a, vcpus, d);
                let padding = padding::of_register(&d[..16]);
                let verdict = vcpu_commands::control_cr(settings, facts, padding, &d[..16]);
                return Judgement { verdict, padding };
            }
        }
        Handler::VcpuControlMsr => {
            if passes(a, id, row, d) {
                let facts = facts_of(a, vcpus, d);
                let padding = padding::of_register(&d[..16]);
                let verdict = vcpu_commands::control_msr(settings, facts, padding, &d[..16]);
                return Judgement { verdict, padding };
            }
        }
        Handler::VmSetPageAccess => {
            if passes(a, id, row, d) {
                let facts = facts_of(a, vcpus, d);
                let padding = padding::of_pages(d);
                let verdict = vm_commands::set_page_access(settings, facts, padding, d);
                return Judgement { verdict, padding };
            }
        }
        Handler::VcpuControlSinglestep => {
            if passes(a, id, row, d) {
                let facts = facts_of(a, vcpus, d);
                let padding = padding::of_vcpu_switch(&d[..16]);
                let verdict = vcpu_commands::control_singlestep(settings, facts, padding, &d[..16]);
                return Judgement { verdict, padding };
            }
        }
        Handler::VmControlCmdResponse => {
            if passes(a, id, row, d) {
                let facts = facts_of(a, vcpus, d);
                let padding = padding::of_switch(&d[..8]);
                let verdict = vm_commands::control_replies(settings, facts, padding, &d[..8]);
                return Judgement { verdict, padding };
            }
        }
        Handler::EventReply => {
            if passes(a, id, row, d) {
                return unreported(event_reply::judge_reply(facts_of(a, vcpus, d), seq, d));
            }
        }
    }
    unreported(refused(a, id))
}
