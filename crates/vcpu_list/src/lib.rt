// vCPU records as a list that the host lends, for a host that keeps them itself: marking one ready, and one CR switch.
// What is done to a record is a function on the record by value; `at_record` reaches the record and stores it back.
#![tactic(auto)]

ghost use Rattle.std.specs.Prelude.{◌≡◌, ◌<◌, ◌≤◌, length, slice_index_or};
ghost use Rattle.vcpu_list.specs.declared.Changed.{Changed};
ghost use Rattle.vcpu_list.specs.List.{one, listed, blank, stored, acknowledged, one_ready, one_cr, marked_ready, cr_set};

use kvmi::Answer;

// A vCPU's whole record: unsigned integers only, so that any bits are a record. A flag is set where it is not 0.
#[repr(C)]
#[derive(Clone, Copy)]
pub struct Vcpu {
    pub ready: u64,
    pub singlestep: u64,
    // CR switches, bits 0, 1 and 2 for CR0, CR3 and CR4.
    pub crs: u64,
    // Event switches, bit e for event e.
    pub events: u64,
    // How many pauses are queued.
    pub pauses: u64,
    // The event whose reply is awaited, or 0, and its seq.
    pub awaited: u64,
    pub awaited_seq: u64,
}

// A record after a call, and the call's answer.
#[derive(Clone, Copy)]
pub struct Changed {
    pub vcpu: Vcpu,
    pub answer: Answer,
}

// Handled, with nothing written and no signal.
fn handled(vcpu: Vcpu) -> Changed
    ensures { one result ≡ acknowledged vcpu }
{
    Changed {
        vcpu,
        answer: kvmi::answers::done(),
    }
}

// Ready from now on.
#[tactic(auto, unfolding(crate::specs::List::one_ready))]
pub fn readied(mut v: Vcpu) -> Changed
    ensures { one result ≡ one_ready v }
{
    v.ready = 1;
    handled(v)
}

// The switch of one control register, where there is one for it and the record is ready.
#[tactic(auto, unfolding(crate::specs::List::one_cr))]
pub fn with_cr(mut v: Vcpu, cr: u32, on: bool) -> Changed
    ensures { one result ≡ one_cr v cr on }
{
    if tests::is_cr(cr) & (v.ready != 0) {
        v.crs = store::bits::put_cr(v.crs, cr, on);
        handled(v)
    } else {
        Changed {
            vcpu: v,
            answer: Answer::NotApplicable,
        }
    }
}

// Record i as `change` leaves it, if there is one. All other records are as they were.
#[tactic(auto, using(std::proofs::lemmas::List::get_or_default))]
fn at_record<F: FnOnce(Vcpu) -> Changed>(vcpus: &mut [Vcpu], i: usize, change: F) -> Answer
    requires { F.IsAlwaysCallable change }
    ensures inside { i < length vcpus.old → (c : Changed) × F.post change (slice_index_or vcpus.old i blank) c × (listed result vcpus.new ≡ stored vcpus.old i (one c)) }
    ensures outside { length vcpus.old ≤ i → listed result vcpus.new ≡ listed Answer.BadVcpu vcpus.old }
{
    if i < vcpus.len() {
        let vcpu = &mut vcpus[i];
        let changed = change(*vcpu);
        *vcpu = changed.vcpu;
        changed.answer
    } else {
        Answer::BadVcpu
    }
}

// Record i can be introspected from now on. Its other fields and all other records are as they were.
#[tactic(auto, unfolding(crate::specs::List::marked_ready, crate::specs::List::on_record))]
pub fn mark_ready(vcpus: &mut [Vcpu], i: usize) -> Answer
    ensures { listed result vcpus.new ≡ marked_ready vcpus.old i }
{
    at_record(vcpus, i, readied)
}

// One CR switch of record i. Its other fields and all other records are as they were.
#[tactic(auto, unfolding(crate::specs::List::cr_set, crate::specs::List::on_record))]
pub fn set_cr(vcpus: &mut [Vcpu], i: usize, cr: u32, on: bool) -> Answer
    ensures { listed result vcpus.new ≡ cr_set vcpus.old i cr on }
{
    at_record(vcpus, i, |v| with_cr(v, cr, on))
}
