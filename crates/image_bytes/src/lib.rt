// The bytes of an image, from the lent words: one pass over them to measure, and one to write. A record is stored into the part of the output
// that it fills, so that its stores need no tests.
#![tactic(auto)]

ghost use Rattle.std.specs.Prelude.{◌≡◌, ℕ, ◌+◌, ◌-◌, ◌*◌, ◌≤◌, ◌<◌, ◌^◌, min, length};
ghost use Rattle.wire.specs.Bytes.{store};
ghost use Rattle.store.specs.Meaning.{vcpus_of};
ghost use Rattle.page_words.specs.Meaning.{pages_of};
ghost use Rattle.image_bytes.specs.Parts.{vc_bytes, pa_bytes, front_bytes, back_bytes, stated_bytes};

// How many vCPUs an image states: no more than there are blocks of words.
pub fn stated_count(vcpus: u32) -> u16
    ensures { result ≡ min vcpus 16 }
{
    vcpus.min(16) as u16
}

// How many bytes an image of n vCPUs has, with so many switches on and so many pages.
fn size_of(n: u16, on: usize, used: usize) -> usize
    requires { (on ≤ 262144) × (used < 2 ^ 60) }
    ensures { result ≡ 14 + 10 * n + 8 * on + 14 * used }
{
    14 + 10 * (n as usize) + 8 * on + 14 * used
}

// The VC records of n vCPUs. This loop and the next differ in the record, its size and what it is made of: one function for both would
// take a closure, and its contract would have to say what that writes.
fn put_vcpus(out: &mut [u8], at: usize, ready: u64, words: &[u64], n: u16)
    requires { at + 10 * n ≤ length out.old }
    ensures { out.new ≡ store out.old at (vc_bytes 0 (vcpus_of ready words.now 0 n)) }
{
    for i in 0..n {
        let from = at + 10 * (i as usize);
        let end = from + 10;
        image_record::vc(&mut out[from..end], ready, words, i);
    }
}

// The PA records of the page words in use.
fn put_pages(out: &mut [u8], at: usize, pages: &[u64], used: usize)
    requires { (used ≤ length pages.now) × (at + 14 * used ≤ length out.old) }
    ensures { out.new ≡ store out.old at (pa_bytes (pages_of pages.now used)) }
{
    for i in 0..used {
        let from = at + 14 * i;
        let end = from + 14;
        image_record::pa(&mut out[from..end], pages[i]);
    }
}

// All records of the image of n vCPUs but the MS records, with so many of these and so many pages, where there is room for it.
fn put_frame(
    out: &mut [u8],
    events: u64,
    ready: u64,
    n: u16,
    on: usize,
    used: usize,
    vcpus: &[u64],
    pages: &[u64],
)
    requires { (used ≤ length pages.now) × (14 + 10 * n + 8 * on + 14 * used ≤ length out.old) }
    ensures { out.new ≡
        store (store out.old 0 (front_bytes events ready n vcpus.now)) (8 + 10 * n + 8 * on)
        (back_bytes (1 + n + on + used) used pages.now) }
{
    let rest = 8 + 10 * (n as usize) + 8 * on;
    let last = rest + 14 * used;
    let end = last + 6;
    image_record::vm(out, n, events);
    put_vcpus(out, 8, ready, vcpus, n);
    put_pages(out, rest, pages, used);
    image_record::en(&mut out[last..end], 1 + (n as usize) + on + used);
}

// How many bytes an image has; events and ready marks are no matter.
pub fn measure(count: u32, used: u64, vcpus: &[u64], pages: &[u64]) -> usize
    ensures { (events ready : ℕ) → result ≡ length (stated_bytes events ready count used vcpus.now pages.now) }
{
    let n = stated_count(count);
    let held = (used as usize).min(pages.len());
    let on = image_msrs::count(vcpus, n);
    size_of(n, on, held)
}

// The image at the start of the output, where there is room for all of it. Gives its size. The MS records, which are counted and written in one
// call, are lent the output but for what comes behind them, so that they are written only where the whole image is.
pub fn put(
    out: &mut [u8],
    events: u64,
    ready: u64,
    count: u32,
    used: u64,
    vcpus: &[u64],
    pages: &[u64],
) -> usize
    ensures value { result ≡ length (stated_bytes events ready count used vcpus.now pages.now) }
    ensures out_after { out.new ≡ store out.old 0 (stated_bytes events ready count used vcpus.now pages.now) }
{
    let n = stated_count(count);
    let held = (used as usize).min(pages.len());
    let room = out.len().saturating_sub(14 * held + 6);
    let on = image_msrs::put(&mut out[..room], 8 + 10 * (n as usize), vcpus, n);
    let size = size_of(n, on, held);
    if size <= out.len() {
        put_frame(out, events, ready, n, on, held, vcpus, pages);
    }
    size
}
