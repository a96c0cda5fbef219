// Padding: bytes of a layout that must be zero. Each function finds the first padding byte that is not, and gives its offset in the message, whose
// header has 8 bytes; 0 says that there is none.
// The offset is a number and no Option: 0 for none is what `first_padding` (kvmi's specs) and the word `padding` of the C result say.
// Eight bytes are loaded at once, so clean padding costs a test and no loop over bytes.
// Each layout has a function of its own. With the message's number as a const parameter, the offsets and lengths of its padding would still be
// arguments beside it.
#![tactic(auto)]

pub mod entries;

ghost use Rattle.std.specs.Prelude.{◌≡◌, ◌+◌, ◌≤◌};
ghost use Rattle.kvmi.specs.Message.{first_non_zero, first_padding};

use entries::Entries;

// Of the n bytes at a place of a message's data.
pub fn first_nonzero(d: &[u8], at: usize, n: usize) -> usize
    ensures { result ≡ first_non_zero d.now at n 0 }
{
    for i in at..wire::smaller(at.saturating_add(n), d.len()) {
        if d[i] != 0 {
            return 8 + i;
        }
    }
    0
}

// Of the n bytes that stand `skip` bytes into the 8 bytes at a place.
fn in_word(d: &[u8], at: usize, skip: usize, n: usize) -> usize
    requires { (at ≤ 8) × ((skip + n ≤ 8) × ((1 ≤ skip) × (1 ≤ n))) }
    ensures { result ≡ first_non_zero d.now (at + skip) n 0 }
{
    let word = wire::load::<u64>(d, at) >> (8 * skip);
    let run = word % (1u64 << (8 * n));
    if (at + 8 <= d.len()) & (run == 0) {
        return 0;
    }
    first_nonzero(d, at + skip, n)
}

// Of what stands behind a vCPU's number, and then of the n bytes that stand `skip` bytes into the 8 bytes after that header.
fn behind_vcpu(d: &[u8], skip: usize, n: usize) -> usize
    requires { (skip + n ≤ 8) × ((1 ≤ skip) × (1 ≤ n)) }
    ensures { result ≡ first_non_zero d.now 2 6 (first_non_zero d.now (8 + skip) n 0) }
{
    let head = in_word(d, 0, 2, 6);
    if head != 0 {
        return head;
    }
    in_word(d, 8, skip, n)
}

// Of VM_CHECK_COMMAND, VM_CHECK_EVENT and VCPU_GET_INFO: a number, then padding.
pub fn of_number(d: &[u8]) -> usize
    ensures { result ≡ first_padding 2 d.now }
{
    in_word(d, 0, 2, 6)
}

// Of VM_CONTROL_EVENTS and VM_CONTROL_CMD_RESPONSE.
pub fn of_switch(d: &[u8]) -> usize
    ensures { result ≡ first_padding 5 d.now }
{
    in_word(d, 0, 3, 5)
}

// Of VCPU_PAUSE and VCPU_CONTROL_SINGLESTEP.
pub fn of_vcpu_switch(d: &[u8]) -> usize
    ensures { result ≡ first_padding 9 d.now }
{
    behind_vcpu(d, 1, 7)
}

// Of VCPU_CONTROL_EVENTS.
pub fn of_vcpu_event(d: &[u8]) -> usize
    ensures { result ≡ first_padding 10 d.now }
{
    behind_vcpu(d, 3, 5)
}

// Of VCPU_CONTROL_CR and VCPU_CONTROL_MSR.
pub fn of_register(d: &[u8]) -> usize
    ensures { result ≡ first_padding 11 d.now }
{
    behind_vcpu(d, 1, 3)
}

// Of EVENT_REPLY.
pub fn of_event_reply(d: &[u8]) -> usize
    ensures { result ≡ first_padding 16 d.now }
{
    behind_vcpu(d, 2, 6)
}

// Of one entry of VM_SET_PAGE_ACCESS, as if the entry were the data.
pub fn of_entry(e: &[u8]) -> usize
    ensures { result ≡ first_non_zero e.now 9 7 0 }
{
    in_word(e, 8, 1, 7)
}

// Of VM_SET_PAGE_ACCESS. Its entries are looked at only if their count fits the size.
pub fn of_pages(d: &[u8]) -> usize
    ensures { result ≡ first_padding 13 d.now }
{
    let head = in_word(d, 0, 4, 4);
    if head != 0 {
        return head;
    }
    let Some(entries) = Entries::of(d) else {
        return 0;
    };
    if entries.are_clean() {
        return 0;
    }
    entries.first_padding()
}
