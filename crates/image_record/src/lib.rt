// The bytes of one record of a table image, at the start of the part of the output that it fills. A part that is too short stays as
// it was.
#![tactic(auto)]

ghost use Rattle.std.specs.Prelude.{◌≡◌, not, ◌+◌, ◌*◌, eqb};
ghost use Rattle.wire.specs.Bytes.{store};
ghost use Rattle.kvmi.specs.Bits.{bit};
ghost use Rattle.kvmi.specs.Record.{write};
ghost use Rattle.kvmi.specs.Image.{vm_record, vc_record, ms_record, pa_record, en_record};
ghost use Rattle.store.specs.Meaning.{vcpu_of_words};
ghost use Rattle.page_words.specs.Meaning.{page_of_word};

use kvmi::marks::{EN, MS, PA, VC, VM};
use page_words::VIEW;

// The flags of a vCPU: 1 ready, 2 singlestep.
#[tactic(auto, unfolding(kvmi::specs::Bits::bit))]
fn flags_of(ready: bool, singlestep: u64) -> u8
    ensures { result ≡ bit ready + 2 * bit (not (eqb singlestep 0)) }
{
    u8::from(ready) + 2 * u8::from(singlestep != 0)
}

// The VM record.
pub fn vm(out: &mut [u8], n: u16, events: u64)
    ensures { out.new ≡ store out.old 0 (write (vm_record n events)) }
{
    if 8 <= out.len() {
        wire::store(out, 0, VM);
        wire::store(out, 2, 1u16);
        wire::store(out, 4, n);
        wire::store(out, 6, (events % 65536) as u16);
    }
}

// The VC record of a vCPU.
pub fn vc(out: &mut [u8], ready: u64, words: &[u64], i: u16)
    ensures { out.new ≡ store out.old 0 (write (vc_record i (vcpu_of_words ready words.now i))) }
{
    let is_ready = kvmi::bits::is_on(ready, i as u32);
    let singlestep = store::words::read_field(words, i, store::words::SINGLESTEP);
    let crs = store::words::read_field(words, i, store::words::CRS);
    let events = store::words::read_field(words, i, store::words::EVENTS);
    let pauses = store::words::read_field(words, i, store::words::PAUSES);
    let flags = flags_of(is_ready, singlestep);
    if 10 <= out.len() {
        wire::store(out, 0, VC);
        wire::store(out, 2, i);
        wire::store(out, 4, flags);
        wire::store(out, 5, (crs % 256) as u8);
        wire::store(out, 6, (events % 65536) as u16);
        wire::store(out, 8, (pauses % 256) as u8);
        wire::store(out, 9, 0u8);
    }
}

// The MS record of a switch.
pub fn ms(out: &mut [u8], vcpu: u16, msr: u32)
    ensures { out.new ≡ store out.old 0 (write (ms_record (record { vcpu = vcpu; msr = msr }))) }
{
    if 8 <= out.len() {
        wire::store(out, 0, MS);
        wire::store(out, 2, vcpu);
        wire::store(out, 4, msr);
    }
}

// The PA record of a page word. Its access and its zero byte are stored as one number.
pub fn pa(out: &mut [u8], w: u64)
    ensures { out.new ≡ store out.old 0 (write (pa_record (page_of_word w))) }
{
    if 14 <= out.len() {
        wire::store(out, 0, PA);
        wire::store(out, 2, (w / VIEW) as u16);
        wire::store(out, 4, (w % 8) as u16);
        wire::store(out, 6, w / 8 % kvmi::PAGES);
    }
}

// The EN record.
pub fn en(out: &mut [u8], count: usize)
    ensures { out.new ≡ store out.old 0 (write (en_record count)) }
{
    if 6 <= out.len() {
        wire::store(out, 0, EN);
        wire::store(out, 2, (count % 4294967296) as u32);
    }
}
