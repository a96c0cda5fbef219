// One record of a table image by itself: its kind, its numbers, its form, and what the settings permit. Every public function takes any numbers.
// `read` gives 0 for a number that is not all there.
#![tactic(auto)]

ghost use Rattle.std.specs.Prelude.{◌≡◌, ◌+◌, ◌≤◌, ℕ, Bool, eqb, leb, cond, ◌&&◌, length, drop, Some, None};
ghost use Rattle.kvmi.specs.Bits.{bits_have};
ghost use Rattle.kvmi.specs.Message.{is_vm_event, is_vcpu_event};
ghost use Rattle.kvmi.specs.Record.{VM, VC, MS, PA};
ghost use Rattle.kvmi.specs.Image.{vcpu_of_row, page_of_row, is_idle, vm_form, vm_may, may_enable, vc_may, pa_may};
ghost use Rattle.image_form.specs.Form.{size_of, mark_in, mark_at, row_at, vm_numbers, vc_numbers, ms_numbers, pa_numbers, vc_fits, ms_fits, pa_fits, Answers};

use kvmi::{Settings, bits, marks};
use session::Session;

// The kinds of records, in the image's order.
#[derive(Clone, Copy, PartialEq, Eq, PartialOrd, Ord)]
pub enum Kind {
    Vm,
    Vc,
    Ms,
    Pa,
    En,
}

impl Kind {
    // How many bytes a record has, its mark among them.
    pub fn size(self) -> usize
        ensures { result ≡ size_of self }
    {
        match self {
            Kind::Vm => 8,
            Kind::Vc => 10,
            Kind::Ms => 8,
            Kind::Pa => 14,
            Kind::En => 6,
        }
    }
}

// The numbers of a VM record.
#[derive(Clone, Copy)]
pub struct VmRecord {
    pub version: u16,
    pub vcpus: u16,
    pub events: u16,
}

// The numbers of a VC record.
#[derive(Clone, Copy)]
pub struct VcRecord {
    pub vcpu: u16,
    pub flags: u8,
    pub crs: u8,
    pub events: u16,
    pub pauses: u8,
    pub zero: u8,
}

// The numbers of an MS record.
#[derive(Clone, Copy)]
pub struct MsRecord {
    pub vcpu: u16,
    pub msr: u32,
}

// The numbers of a PA record.
#[derive(Clone, Copy)]
pub struct PaRecord {
    pub view: u16,
    pub access: u8,
    pub zero: u8,
    pub page: u64,
}

// The kind, if a record of it fits into n bytes: those from the record's start to the end of the image.
fn whole(kind: Kind, n: usize) -> Option<Kind>
    ensures { result ≡ cond (leb (size_of kind) n) (Some kind) None }
{
    if kind.size() <= n { Some(kind) } else { None }
}

// The kind that a mark names, two ASCII letters as one number, if all of the record is there.
// Each arm tests its own size: one test after the match (`filter`) takes 12 instructions more a record.
#[tactic(auto, unfolding(crate::specs::Form::mark_in))]
fn mark_in(mark: u16, n: usize) -> Option<Kind>
    ensures { result ≡ mark_in mark n }
{
    match mark {
        marks::VM => whole(Kind::Vm, n),
        marks::VC => whole(Kind::Vc, n),
        marks::MS => whole(Kind::Ms, n),
        marks::PA => whole(Kind::Pa, n),
        marks::EN => whole(Kind::En, n),
        _ => None,
    }
}

// The kind of the record at an offset, if all of it is there.
pub fn mark_at(l: &[u8], at: usize) -> Option<Kind>
    ensures { result ≡ mark_at l.now at }
{
    mark_in(wire::load(l, at), l.len().saturating_sub(at))
}

// Whether each bit that is set is among those allowed.
fn has_bits<F: Fn(u32) -> bool>(w: u16, allowed: F) -> bool
    requires { F.IsAlwaysCallable allowed }
    ensures { (f : ℕ → Bool) → Answers (F.post allowed) f → result ≡ bits_have f 0 16 w }
{
    let mut x = w;
    for i in 0..16 {
        if x % 2 != 0 && !allowed(i) {
            return false;
        }
        x /= 2;
    }
    x == 0
}

// Whether VM_CONTROL_EVENTS takes each event whose bit is set.
#[tactic(auto, unfolding(kvmi::specs::Message::is_vm_event))]
fn are_vm_events(events: u16) -> bool
    ensures { result ≡ bits_have is_vm_event 0 16 events }
{
    has_bits(events, |i| matches!(i, 1 | 12))
}

// Whether VCPU_CONTROL_EVENTS takes each event whose bit is set.
#[tactic(auto, unfolding(kvmi::specs::Message::is_vcpu_event))]
fn are_vcpu_events(events: u16) -> bool
    ensures { result ≡ bits_have is_vcpu_event 0 16 events }
{
    has_bits(events, |i| matches!(i, 3..=5 | 7..=11 | 14))
}

// Whether the settings let an event be on.
#[tactic(auto, unfolding(kvmi::specs::Image::may_enable, kvmi::specs::Settings::allows_event, kvmi::specs::Settings::held_by_host, kvmi::specs::Settings::uncatchable, kvmi::specs::Settings::is_set))]
fn may_enable(s: Settings, event: u32) -> bool
    ensures { result ≡ may_enable s event }
{
    let held_by_host = match event {
        4 => s.breakpoints != 0,
        8 => s.descriptors == 0,
        _ => false,
    };
    bits::is_on(s.events as u64, event) && !held_by_host
}

impl VmRecord {
    pub fn read(l: &[u8], at: usize) -> VmRecord
        ensures { vm_numbers result ≡ row_at VM l.now at }
    {
        let record = wire::behind(l, at);
        VmRecord {
            version: wire::load(record, 2),
            vcpus: wire::load(record, 4),
            events: wire::load(record, 6),
        }
    }

    #[tactic(auto, unfolding(kvmi::specs::Image::vm_form))]
    pub fn has_form(self) -> bool
        ensures { result ≡ (eqb self.version 1 && vm_form self.vcpus self.events) }
    {
        self.version == 1 && 1 <= self.vcpus && self.vcpus <= 16 && are_vm_events(self.events)
    }

    // Whether the settings permit it.
    #[tactic(auto, unfolding(kvmi::specs::Image::vm_may, kvmi::specs::Settings::allows_event))]
    pub fn is_permitted(self, s: Settings) -> bool
        ensures { result ≡ vm_may s self.vcpus self.events }
    {
        self.vcpus as u32 == s.vcpus && has_bits(self.events, |i| bits::is_on(s.events as u64, i))
    }
}

impl VcRecord {
    pub fn read(l: &[u8], at: usize) -> VcRecord
        ensures { vc_numbers result ≡ row_at VC l.now at }
    {
        let record = wire::behind(l, at);
        VcRecord {
            vcpu: wire::load(record, 2),
            flags: wire::byte(record, 4),
            crs: wire::byte(record, 5),
            events: wire::load(record, 6),
            pauses: wire::byte(record, 8),
            zero: wire::byte(record, 9),
        }
    }

    // Whether the vCPU is ready.
    pub fn is_ready(self) -> bool
        ensures { result ≡ (vcpu_of_row (vc_numbers self)).ready }
    {
        self.flags % 2 == 1
    }

    // Whether singlestep is on.
    pub fn is_stepping(self) -> bool
        ensures { result ≡ (vcpu_of_row (vc_numbers self)).singlestep }
    {
        self.flags / 2 == 1
    }

    // Whether no switch is on and no pause is queued.
    #[tactic(auto, unfolding(kvmi::specs::Image::is_idle))]
    fn is_idle(self) -> bool
        ensures { result ≡ is_idle (vcpu_of_row (vc_numbers self)) }
    {
        !self.is_stepping() && self.crs == 0 && self.events == 0 && self.pauses == 0
    }

    #[tactic(auto, unfolding(crate::specs::Form::vc_fits, kvmi::specs::Image::vc_form))]
    pub fn has_form(self, s: Settings) -> bool
        ensures { result ≡ vc_fits s (vc_numbers self) }
    {
        (self.vcpu as u32) < s.vcpus
            && self.flags <= 3
            && self.zero == 0
            && self.crs <= 7
            && are_vcpu_events(self.events)
            && Session::can_hold(self.pauses as u64)
            && (self.is_ready() || self.is_idle())
    }

    // Whether the settings permit it.
    #[tactic(auto, unfolding(kvmi::specs::Image::vc_may, kvmi::specs::Settings::allows_event, kvmi::specs::Settings::can_singlestep, kvmi::specs::Settings::is_set))]
    pub fn is_permitted(self, s: Settings) -> bool
        ensures { result ≡ vc_may s (vcpu_of_row (vc_numbers self)) }
    {
        has_bits(self.events, |i| may_enable(s, i))
            && (self.pauses == 0 || bits::is_on(s.events as u64, 2))
            && (!self.is_stepping() || s.singlestep != 0)
    }
}

impl MsRecord {
    pub fn read(l: &[u8], at: usize) -> MsRecord
        ensures { ms_numbers result ≡ row_at MS l.now at }
    {
        let record = wire::behind(l, at);
        MsRecord {
            vcpu: wire::load(record, 2),
            msr: wire::load(record, 4),
        }
    }

    // Its form, after VC records of `count` vCPUs with their ready marks.
    #[tactic(auto, unfolding(crate::specs::Form::ms_fits))]
    pub fn has_form(self, count: u32, ready: u64) -> bool
        ensures { result ≡ ms_fits count ready (ms_numbers self) }
    {
        let vcpu = self.vcpu as u32;
        vcpu < count && msrs::is_msr(self.msr) && bits::is_on(ready, vcpu)
    }
}

impl PaRecord {
    pub fn read(l: &[u8], at: usize) -> PaRecord
        ensures { pa_numbers result ≡ row_at PA l.now at }
    {
        let record = wire::behind(l, at);
        PaRecord {
            view: wire::load(record, 2),
            access: wire::byte(record, 4),
            zero: wire::byte(record, 5),
            page: wire::load(record, 6),
        }
    }

    // Its form, after PA records of `pages` pages.
    #[tactic(auto, unfolding(crate::specs::Form::pa_fits, kvmi::specs::Image::pa_form))]
    pub fn has_form(self, pages: usize) -> bool
        ensures { result ≡ pa_fits pages (pa_numbers self) }
    {
        self.zero == 0
            && self.view < kvmi::VIEWS
            && self.access <= 5
            && self.access != 2
            && self.page < kvmi::PAGES
            && Session::has_room(pages)
    }

    // Whether the settings permit it.
    #[tactic(auto, unfolding(kvmi::specs::Image::pa_may))]
    pub fn is_permitted(self, s: Settings) -> bool
        ensures { result ≡ pa_may s (page_of_row (pa_numbers self)) }
    {
        (self.view as u32) < s.views && tests::takes_access(s, self.access)
    }
}
