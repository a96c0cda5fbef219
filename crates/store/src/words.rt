// The vCPU words: a block for each vCPU, plain fields first and then a bit for each MSR switch.
ghost use Rattle.std.specs.Prelude.{◌≡◌, set, slice_index, slice_set};
ghost use Rattle.store.specs.Words.{field, set_field, pending, msr_bit_on, set_msr_bit, queued_pause, switched_field, switched_cr, set_fault, ended_wait, cleared, awaited_from, awaited_words};

use crate::bits::{put_bit, put_cr};
use kvmi::{Awaited, Fault, Pending};

// How many words a vCPU has.
pub const BLOCK_WORDS: usize = 272;

// How many words are lent for the vCPUs: a block for each of 16.
pub const VCPU_WORDS: usize = 4352;

pub type VcpuWords = [u64; VCPU_WORDS];

// The plain fields: the switches and queues of a vCPU, and the event whose reply is awaited with its seq and, of a page fault, its addresses and access.
// Numbers and no enum: `read_field` promises `field words vcpu k` for every k.
pub const SINGLESTEP: usize = 0;

pub const CRS: usize = 1;

pub const EVENTS: usize = 2;

pub const PAUSES: usize = 3;

pub const AWAITED: usize = 4;

pub const AWAITED_SEQ: usize = 5;

pub const FAULT_GVA: usize = 6;

pub const FAULT_GPA: usize = 7;

pub const FAULT_ACCESS: usize = 8;

// The first word of MSR switches.
pub const MSRS: usize = 16;

// The word at a place, or 0 past the end.
pub fn word(words: &[u64], at: usize) -> u64
    ensures { result ≡ slice_index words.now at }
{
    words.get(at).copied().unwrap_or(0)
}

// Stores a word at an index; past the end nothing changes. It is written with a test and an index, since the check doesn't find what the whole slice
// holds after a write through `get_mut`.
fn set_word(words: &mut [u64], at: usize, x: u64)
    ensures { words.new ≡ slice_set words.old at x }
{
    if at < words.len() {
        words[at] = x;
    }
}

// Field k of a vCPU.
#[tactic(auto, unfolding(crate::specs::Words::field))]
pub fn read_field(words: &[u64], vcpu: u16, k: usize) -> u64
    ensures { result ≡ field words.now vcpu k }
{
    if k < words.len() {
        word(words, (vcpu as usize) * BLOCK_WORDS + k)
    } else {
        0
    }
}

// An awaited event, where there is one: the number 0 stands for none.
#[tactic(auto, unfolding(crate::specs::Words::awaited_from))]
fn awaited_from(event: u64, seq: u64, fault: Fault) -> Option<Awaited>
    ensures { result ≡ awaited_from event seq fault }
{
    (event != 0).then_some(Awaited { event, seq, fault })
}

// The words of a vCPU's awaited event, as they are. The event's number is 0 where none is awaited.
// One test covers all five where the vCPU's words are there. Otherwise each is read with a test of its own.
#[tactic(auto, unfolding(crate::specs::Words::field))]
pub fn read_awaited(words: &[u64], vcpu: u16) -> Awaited
    ensures { result ≡ awaited_words words.now vcpu }
{
    let at = (vcpu as usize) * BLOCK_WORDS;
    if at + FAULT_ACCESS < words.len() {
        let fault = Fault {
            gva: words[at + FAULT_GVA],
            gpa: words[at + FAULT_GPA],
            access: words[at + FAULT_ACCESS],
        };
        return Awaited {
            event: words[at + AWAITED],
            seq: words[at + AWAITED_SEQ],
            fault,
        };
    }
    let fault = Fault {
        gva: read_field(words, vcpu, FAULT_GVA),
        gpa: read_field(words, vcpu, FAULT_GPA),
        access: read_field(words, vcpu, FAULT_ACCESS),
    };
    Awaited {
        event: read_field(words, vcpu, AWAITED),
        seq: read_field(words, vcpu, AWAITED_SEQ),
        fault,
    }
}

// What is pending of a vCPU.
pub fn read_pending(words: &[u64], vcpu: u16) -> Pending
    ensures { result ≡ pending words.now vcpu }
{
    let awaited = read_awaited(words, vcpu);
    Pending {
        pauses: read_field(words, vcpu, PAUSES),
        awaited: awaited_from(awaited.event, awaited.seq, awaited.fault),
    }
}

// Field k of a vCPU set.
#[tactic(auto, unfolding(crate::specs::Words::set_field))]
pub fn write_field(words: &mut [u64], vcpu: u16, k: usize, x: u64)
    ensures { words.new ≡ set_field words.old vcpu k x }
{
    if k < words.len() {
        set_word(words, (vcpu as usize) * BLOCK_WORDS + k, x);
    }
}

// Whether a vCPU's switch for an MSR is on; one of no place is off.
#[tactic(auto, unfolding(crate::specs::Words::msr_bit_on, crate::specs::Words::switch_on))]
pub fn read_msr(words: &[u64], vcpu: u16, msr: u32) -> bool
    ensures { result ≡ msr_bit_on words.now vcpu msr }
{
    match msrs::msr_place(msr) {
        Some(place) => {
            let k = MSRS + (place as usize) / 64;
            kvmi::bits::is_on(read_field(words, vcpu, k), (place as u32) % 64)
        }
        None => false,
    }
}

// A vCPU's switch for an MSR set; one of no place stays as it is.
#[tactic(auto, unfolding(crate::specs::Words::set_msr_bit))]
pub fn write_msr(words: &mut [u64], vcpu: u16, msr: u32, on: bool)
    ensures { words.new ≡ set_msr_bit words.old vcpu msr on }
{
    if let Some(place) = msrs::msr_place(msr) {
        let k = MSRS + (place as usize) / 64;
        switch_field(words, vcpu, k, (place as u32) % 64, on);
    }
}

// One pause more in a vCPU's queue.
#[tactic(auto, unfolding(crate::specs::Words::queued_pause))]
pub fn queue_pause(words: &mut [u64], vcpu: u16)
    ensures { words.new ≡ queued_pause words.old vcpu }
{
    let queued = read_field(words, vcpu, PAUSES);
    let more = queued.wrapping_add(1);
    write_field(words, vcpu, PAUSES, more);
}

// One bit of a vCPU's field.
#[tactic(auto, unfolding(crate::specs::Words::switched_field, crate::specs::Words::put_bit64))]
pub fn switch_field(words: &mut [u64], vcpu: u16, k: usize, bit: u32, on: bool)
    ensures { words.new ≡ switched_field words.old vcpu k bit on }
{
    let was = read_field(words, vcpu, k);
    let is = put_bit(was, bit, on);
    write_field(words, vcpu, k, is);
}

// One control register's switch of a vCPU.
#[tactic(auto, unfolding(crate::specs::Words::switched_cr))]
pub fn switch_cr(words: &mut [u64], vcpu: u16, cr: u32, on: bool)
    ensures { words.new ≡ switched_cr words.old vcpu cr on }
{
    let was = read_field(words, vcpu, CRS);
    let is = put_cr(was, cr, on);
    write_field(words, vcpu, CRS, is);
}

// What is kept of a page fault.
#[tactic(auto, unfolding(crate::specs::Words::set_fault))]
pub fn write_fault(words: &mut [u64], vcpu: u16, fault: Fault)
    ensures { words.new ≡ set_fault words.old vcpu fault }
{
    write_field(words, vcpu, FAULT_GVA, fault.gva);
    write_field(words, vcpu, FAULT_GPA, fault.gpa);
    write_field(words, vcpu, FAULT_ACCESS, fault.access);
}

// No reply awaited any more.
#[tactic(auto, unfolding(crate::specs::Words::ended_wait))]
pub fn end_wait(words: &mut [u64], vcpu: u16)
    ensures { words.new ≡ ended_wait words.old vcpu }
{
    write_field(words, vcpu, AWAITED, 0);
    write_field(words, vcpu, AWAITED_SEQ, 0);
    let none = Fault {
        gva: 0,
        gpa: 0,
        access: 0,
    };
    write_fault(words, vcpu, none);
}

// Every word set to 0.
#[tactic(auto, unfolding(crate::specs::Words::cleared))]
pub fn clear(words: &mut [u64])
    ensures { words.new ≡ cleared words.old }
{
    words.fill(0);
}
