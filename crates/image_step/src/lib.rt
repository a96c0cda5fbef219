// The test of one record of a table image, with what it asks of those before it. It changes nothing.
#![tactic(auto)]

ghost use Rattle.std.specs.Prelude.{◌≡◌, ◌+◌, ◌≤◌, ◌<◌, ◌^◌, length, cond, Ok, Err};
ghost use Rattle.kvmi.specs.Record.{VM, VC, MS, PA, EN};
ghost use Rattle.image_form.specs.Form.{size_of, mark_at, row_at};
ghost use Rattle.image_step.specs.Step.{refusal_answer, is_after, past, vm_step, vc_step, ms_step, pa_step, en_step, next_step_of, first_by};

use image_form::{Kind, MsRecord, PaRecord, VcRecord, VmRecord};
use kvmi::{Answer, Settings};

// A place in the image's order: by kind, then by vCPU or view, then by MSR or page.
#[derive(Clone, Copy, PartialEq, Eq, PartialOrd, Ord)]
pub struct Place {
    pub kind: Kind,
    pub major: u16,
    pub minor: u64,
}

// What the tests of a record ask of those before it.
#[derive(Clone, Copy)]
pub struct Progress {
    // The offset of the next record, and how many come before it. The count wraps, since it may start at any number.
    pub at: usize,
    pub records: usize,
    // The place of the last one.
    pub last: Place,
    // VM event switches.
    pub events: u64,
    // How many vCPUs and pages there were, and the ready marks.
    pub count: u32,
    pub ready: u64,
    pub pages: usize,
}

// What an accepted image states beside its words.
#[derive(Clone, Copy)]
pub struct Stated {
    pub events: u64,
    pub pages: usize,
    pub ready: u64,
}

// The offset of the first record that breaks a rule.
#[derive(Clone, Copy)]
pub enum Refusal {
    BadForm { offset: usize },
    Forbidden { offset: usize },
}

impl From<Refusal> for Answer {
    ghost from_gives = { λ r a. a ≡ refusal_answer r };

    fn from(refusal: Refusal) -> Answer {
        match refusal {
            Refusal::BadForm { offset } => Answer::BadForm { offset },
            Refusal::Forbidden { offset } => Answer::Forbidden { offset },
        }
    }
}

// What the test of a record that is not refused says: the image goes on, or it ends.
#[derive(Clone, Copy)]
pub enum Step {
    Next(Progress),
    End(Stated),
}

// Refuses if a rule does not hold. What is permitted is tested only after the form has passed: both at once take 2 instructions
// more a record.
fn check(holds: bool, refusal: Refusal) -> Result<(), Refusal>
    ensures { result ≡ cond holds (Ok tt) (Err refusal) }
{
    if holds { Ok(()) } else { Err(refusal) }
}

impl Progress {
    // Whether a place comes after that of the last record.
    fn precedes(self, place: Place) -> bool
        ensures { result ≡ is_after self place }
    {
        self.last < place
    }

    // After one record more.
    fn past(self, place: Place) -> Progress
        requires { self.at + size_of place.kind < 2 ^ 64 }
        ensures { result ≡ past self place }
    {
        Progress {
            at: self.at + place.kind.size(),
            records: self.records.wrapping_add(1),
            last: place,
            ..self
        }
    }
}

#[tactic(auto, unfolding(crate::specs::Step::vm_step))]
fn step_vm(s: Settings, l: &[u8]) -> Result<Progress, Refusal>
    requires { 8 ≤ length l.now }
    ensures { result ≡ vm_step s (row_at VM l.now 0) }
{
    let record = VmRecord::read(l, 0);
    check(record.has_form(), Refusal::BadForm { offset: 0 })?;
    check(record.is_permitted(s), Refusal::Forbidden { offset: 0 })?;
    let place = Place {
        kind: Kind::Vm,
        major: 0,
        minor: 0,
    };
    Ok(Progress {
        at: place.kind.size(),
        records: 1,
        last: place,
        events: record.events as u64,
        count: 0,
        ready: 0,
        pages: 0,
    })
}

#[tactic(auto, unfolding(crate::specs::Step::vc_step, store::specs::Words::put_bit64))]
fn step_vc(s: Settings, l: &[u8], p: Progress) -> Result<Step, Refusal>
    requires { p.at + 10 ≤ length l.now }
    ensures { result ≡ vc_step s p (row_at VC l.now p.at) }
{
    let record = VcRecord::read(l, p.at);
    let place = Place {
        kind: Kind::Vc,
        major: record.vcpu,
        minor: 0,
    };
    let form = p.precedes(place) && record.vcpu as u32 == p.count && record.has_form(s);
    check(form, Refusal::BadForm { offset: p.at })?;
    check(record.is_permitted(s), Refusal::Forbidden { offset: p.at })?;
    Ok(Step::Next(Progress {
        count: p.count + 1,
        ready: store::bits::put_bit(p.ready, p.count, record.is_ready()),
        ..p.past(place)
    }))
}

#[tactic(auto, unfolding(crate::specs::Step::ms_step))]
fn step_ms(s: Settings, l: &[u8], p: Progress) -> Result<Step, Refusal>
    requires { p.at + 8 ≤ length l.now }
    ensures { result ≡ ms_step s p (row_at MS l.now p.at) }
{
    let record = MsRecord::read(l, p.at);
    let place = Place {
        kind: Kind::Ms,
        major: record.vcpu,
        minor: record.msr as u64,
    };
    let form = p.precedes(place) && p.count == s.vcpus && record.has_form(p.count, p.ready);
    check(form, Refusal::BadForm { offset: p.at })?;
    Ok(Step::Next(p.past(place)))
}

#[tactic(auto, unfolding(crate::specs::Step::pa_step, image_form::specs::Form::pa_fits))]
fn step_pa(s: Settings, l: &[u8], p: Progress) -> Result<Step, Refusal>
    requires { p.at + 14 ≤ length l.now }
    ensures { result ≡ pa_step s p (row_at PA l.now p.at) }
{
    let record = PaRecord::read(l, p.at);
    let place = Place {
        kind: Kind::Pa,
        major: record.view,
        minor: record.page,
    };
    let form = p.precedes(place) && p.count == s.vcpus && record.has_form(p.pages);
    check(form, Refusal::BadForm { offset: p.at })?;
    check(record.is_permitted(s), Refusal::Forbidden { offset: p.at })?;
    Ok(Step::Next(Progress {
        pages: p.pages + 1,
        ..p.past(place)
    }))
}

#[tactic(auto, unfolding(crate::specs::Step::en_step))]
fn step_en(s: Settings, l: &[u8], p: Progress) -> Result<Step, Refusal>
    requires { p.at + 6 ≤ length l.now }
    ensures { result ≡ en_step s (length l.now) p (row_at EN l.now p.at) }
{
    let records = wire::load::<u32>(l, p.at + 2);
    let next = p.at + Kind::En.size();
    let place = Place {
        kind: Kind::En,
        major: 0,
        minor: 0,
    };
    let form = p.precedes(place) && p.count == s.vcpus && records as usize == p.records;
    check(form, Refusal::BadForm { offset: p.at })?;
    check(l.len() == next, Refusal::BadForm { offset: next })?;
    Ok(Step::End(Stated {
        events: p.events,
        pages: p.pages,
        ready: p.ready,
    }))
}

// The test of the record that comes next.
#[tactic(auto, unfolding(crate::specs::Step::next_step_of, crate::specs::Step::step_by))]
pub fn next_step(s: Settings, l: &[u8], p: Progress) -> Result<Step, Refusal>
    ensures { result ≡ next_step_of s l.now p }
{
    match image_form::mark_at(l, p.at) {
        Some(Kind::Vc) => step_vc(s, l, p),
        Some(Kind::Ms) => step_ms(s, l, p),
        Some(Kind::Pa) => step_pa(s, l, p),
        Some(Kind::En) => step_en(s, l, p),
        Some(Kind::Vm) | None => Err(Refusal::BadForm { offset: p.at }),
    }
}

// The test of the first record.
#[tactic(auto, unfolding(crate::specs::Step::first_by))]
pub fn first_step(s: Settings, l: &[u8]) -> Result<Progress, Refusal>
    ensures { result ≡ first_by s l.now (mark_at l.now 0) }
{
    match image_form::mark_at(l, 0) {
        Some(Kind::Vm) => step_vm(s, l),
        _ => Err(Refusal::BadForm { offset: 0 }),
    }
}
