// One test a function, on the numbers that it needs.
#![tactic(auto)]

ghost use Rattle.std.specs.Prelude.{◌≡◌, [], ◌∷◌, cond, not, ◌&&◌, ◌||◌, leb, eqb};
ghost use Rattle.kvmi.specs.Bits.{is_on, among};
ghost use Rattle.kvmi.specs.Settings.{is_set, has_execute_only};
ghost use Rattle.kvmi.specs.Tables.{is_cr};
ghost use Rattle.kvmi.specs.Message.{size_fits, carries_data, is_vm_event, is_vcpu_event};
ghost use Rattle.kvmi.specs.Verdict.{replies_on, takes_access, in_one_page, mode_of};
ghost use Rattle.kvmi.specs.Feed.{page_exists};

use kvmi::{ReplyKind, ReplyMode, Settings, SizeRule};

// ---- numbers; sets of them by `|`: as patterns of `matches!` a small command takes 4 instructions more, and a message 13 one more an entry

// Whether a flag of the settings is set.
pub fn is_set(flag: u8) -> bool
    ensures { result ≡ is_set flag }
{
    flag != 0
}

// Whether a byte of a message is a switch, 0 or 1.
pub fn is_switch(b: u8) -> bool
    ensures { result ≡ leb b 1 }
{
    b <= 1
}

// Whether a command on a vCPU is malformed: padding that is not clean (its offset is not 0), a vCPU not below the count, or a
// switch that is none.
pub fn is_malformed(padding: usize, vcpus: u32, vcpu: u16, switch: u8) -> bool
    ensures { result ≡ (not (eqb padding 0) || leb vcpus vcpu || not (leb switch 1)) }
{
    (padding != 0) | (vcpus <= vcpu as u32) | !is_switch(switch)
}

// Whether a command is allowed: 1, 2, 3 and 16 always.
pub fn allows_command(commands: u32, id: u16) -> bool
    ensures { result ≡ (among id (1 ∷ 2 ∷ 3 ∷ 16 ∷ []) || is_on commands id) }
{
    (id == 1) | (id == 2) | (id == 3) | (id == 16) | kvmi::bits::is_on(commands as u64, id as u32)
}

// Whether an event is allowed. Of the 32 bits by themselves: over `kvmi::bits::is_on` the compiler makes more code of the switches.
pub fn allows_event(events: u32, event: u16) -> bool
    ensures { result ≡ is_on events event }
{
    event < 32 && (events >> event) % 2 == 1
}

// Whether VM_CHECK_COMMAND takes a command.
pub fn is_command(id: u16) -> bool
    ensures { result ≡ (leb 1 id && leb id 15) }
{
    matches!(id, 1..=15)
}

// Whether VM_CHECK_EVENT takes an event.
pub fn is_event(e: u16) -> bool
    ensures { result ≡ (leb 1 e && leb e 14) }
{
    matches!(e, 1..=14)
}

// Whether VM_CONTROL_EVENTS takes an event.
pub fn is_vm_event(e: u16) -> bool
    ensures { result ≡ is_vm_event e }
{
    (e == 1) | (e == 12)
}

// Whether VCPU_CONTROL_EVENTS takes an event.
pub fn is_vcpu_event(e: u16) -> bool
    ensures { result ≡ is_vcpu_event e }
{
    let low = (e == 3) | (e == 4) | (e == 5) | (e == 7);
    low | (e == 8) | (e == 9) | (e == 10) | (e == 11) | (e == 14)
}

pub fn is_cr(cr: u32) -> bool
    ensures { result ≡ is_cr cr }
{
    (cr == 0) | (cr == 3) | (cr == 4)
}

// The accesses that a page can have under settings, bit a for access a: 0, 1, 3, 4, 5 and 7 (W needs R), and where the processor has no
// execute-only pages the same without 4.
fn accesses(settings: Settings) -> u32
    ensures { result ≡ cond (has_execute_only settings) 0xBB 0xAB }
{
    if is_set(settings.execute_only) {
        0xBB
    } else {
        0xAB
    }
}

// Whether a page can have an access under settings.
pub fn takes_access(settings: Settings, a: u8) -> bool
    ensures { result ≡ takes_access settings a }
{
    a <= 7 && (accesses(settings) >> a) % 2 == 1
}

// ---- guest memory

// Whether bytes of guest memory lie in one page, and there are some. The size is tested first, so that the sum does not wrap.
pub fn in_one_page(gpa: u64, size: u64) -> bool
    ensures { result ≡ in_one_page gpa size }
{
    size <= 4096 && (1 <= size) & (gpa % 4096 + size <= 4096)
}

// Whether an address's page lies wholly inside the guest memory that is lent.
pub fn page_exists(guest: usize, gpa: u64) -> bool
    ensures { result ≡ page_exists guest gpa }
{
    gpa / 4096 < (guest as u64) / 4096
}

// ---- the reply mode

pub fn replies_on(mode: ReplyMode) -> bool
    ensures { result ≡ replies_on mode }
{
    matches!(mode, ReplyMode::On)
}

// The mode that VM_CONTROL_CMD_RESPONSE sets. Its flag counts only where replies go off.
pub fn mode_from(enable: bool, flag: bool) -> ReplyMode
    ensures { result ≡ mode_of enable flag }
{
    match (enable, flag) {
        (true, _) => ReplyMode::On,
        (false, true) => ReplyMode::ErrorsOnly,
        (false, false) => ReplyMode::Off,
    }
}

// ---- the table's row of a message

pub fn carries_data(reply: ReplyKind) -> bool
    ensures { result ≡ carries_data reply }
{
    matches!(reply, ReplyKind::WithData)
}

// Whether a message has as many data bytes as its row says. Its size field may be any number: nothing here wraps.
pub fn size_fits(rule: SizeRule, d: &[u8]) -> bool
    ensures { result ≡ size_fits rule d.now }
{
    let n = d.len();
    match rule {
        SizeRule::Exactly { bytes } => n == bytes as usize,
        SizeRule::SizeField => 16 <= n && (n - 16) as u64 == wire::load::<u64>(d, 8),
        SizeRule::Entries => 8 <= n,
        SizeRule::ByEvent => 16 <= n,
    }
}
