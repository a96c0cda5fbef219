// What stands in a session, looked up one by one: by these a host programs page rights, intercepts and single-stepping. None refuses: what a
// session has none of is off, 0, or a page at rwx, and whatever bits stand in the lent words, the answer is fixed by them.
// A switch is given as 1 where it is on, and as 0 where it is off: C reads these numbers (include/semblurick.h).
#![tactic(auto)]

ghost use Rattle.std.specs.Prelude.{◌≡◌};
ghost use Rattle.lookup.specs.Lookup.{look_open, look_ready, look_vm_event, look_field, look_count, look_access, numbers_of, look_page, look_event, look_cr, look_msr, look_singlestep, look_pauses, look_awaited};

use kvmi::{PAGES, VIEWS};
use page_words::{PageWords, VIEW};
use session::Session;
use store::words::VcpuWords;

// The access of a page that has no word, as the lookups give it.
const RWX: u32 = page_words::RWX as u32;

// How many words are lent for a page's numbers: view, page and access.
pub const PAGE_NUMBERS: usize = 3;

pub type PageNumbers = [u64; PAGE_NUMBERS];

// ---- the session

// Whether it is open.
pub fn is_open(s: Session) -> u32
    ensures { result ≡ look_open s }
{
    (s.tool.opened != 0) as u32
}

// Whether a vCPU is ready.
pub fn is_ready(s: Session, vcpu: u32) -> u32
    ensures { result ≡ look_ready s vcpu }
{
    kvmi::bits::is_on(s.shared.ready, vcpu) as u32
}

// Whether an event is on for the VM.
pub fn vm_event(s: Session, event: u32) -> u32
    ensures { result ≡ look_vm_event s event }
{
    kvmi::bits::is_on(s.tool.events, event) as u32
}

// ---- a vCPU

// Field k of a vCPU; in a closed session 0, whatever stands in the words.
fn field(s: Session, vcpus: &[u64], vcpu: u32, k: usize) -> u64
    ensures { result ≡ look_field s vcpus.now vcpu k }
{
    if s.tool.opened == 0 {
        return 0;
    }
    store::words::read_field(vcpus, calls::vcpu_number(vcpu), k)
}

// Whether an event is on for a vCPU.
pub fn vcpu_event(s: Session, vcpus: &VcpuWords, vcpu: u32, event: u32) -> u32
    ensures { result ≡ look_event s vcpus.now vcpu event }
{
    let events = field(s, vcpus, vcpu, store::words::EVENTS);
    kvmi::bits::is_on(events, event) as u32
}

// Whether the switch of CR0, CR3 or CR4 is on.
pub fn cr(s: Session, vcpus: &VcpuWords, vcpu: u32, cr: u32) -> u32
    ensures { result ≡ look_cr s vcpus.now vcpu cr }
{
    if !tests::is_cr(cr) {
        return 0;
    }
    let crs = field(s, vcpus, vcpu, store::words::CRS);
    kvmi::bits::is_on(crs, store::bits::cr_bit(cr)) as u32
}

// Whether an MSR's switch is on.
pub fn msr(s: Session, vcpus: &VcpuWords, vcpu: u32, msr: u32) -> u32
    ensures { result ≡ look_msr s vcpus.now vcpu msr }
{
    if s.tool.opened == 0 {
        return 0;
    }
    store::words::read_msr(vcpus, calls::vcpu_number(vcpu), msr) as u32
}

// Whether a vCPU is single-stepped.
pub fn singlestep(s: Session, vcpus: &VcpuWords, vcpu: u32) -> u32
    ensures { result ≡ look_singlestep s vcpus.now vcpu }
{
    let flag = field(s, vcpus, vcpu, store::words::SINGLESTEP);
    (flag != 0) as u32
}

// How many pauses are queued for a vCPU.
pub fn pauses(s: Session, vcpus: &VcpuWords, vcpu: u32) -> u64
    ensures { result ≡ look_pauses s vcpus.now vcpu }
{
    field(s, vcpus, vcpu, store::words::PAUSES)
}

// The event whose reply a vCPU awaits, or 0.
pub fn awaited(s: Session, vcpus: &VcpuWords, vcpu: u32) -> u64
    ensures { result ≡ look_awaited s vcpus.now vcpu }
{
    field(s, vcpus, vcpu, store::words::AWAITED)
}

// ---- the pages

// How many pages stand below rwx.
pub fn page_count(s: Session) -> usize
    ensures { result ≡ look_count s }
{
    wire::smaller(s.tool.pages as usize, page_words::PAGE_WORDS)
}

// The access of a page in a view; one without a record stands at rwx.
pub fn access(s: Session, pages: &PageWords, view: u32, page: u64) -> u32
    ensures { result ≡ look_access s pages.now view page }
{
    if VIEWS as u32 <= view {
        return RWX;
    }
    if PAGES <= page {
        return RWX;
    }
    page_words::word_access(pages, s.tool.pages as usize, (view as u64) * PAGES + page)
}

// Page i of those that stand below rwx, in the image's order: its numbers, and its access once more as the result. From their count on, page 0
// of view 0 at rwx.
pub fn page_at(s: Session, pages: &PageWords, i: usize, page: &mut PageNumbers) -> u32
    ensures { (result ≡ (look_page s pages.now i).access) × (page.new ≡ numbers_of (look_page s pages.now i)) }
{
    if i < page_count(s) {
        let word = store::words::word(pages, i);
        *page = [word / VIEW, word / 8 % PAGES, word % 8];
        (word % 8) as u32
    } else {
        *page = [0, 0, RWX as u64];
        RWX
    }
}
