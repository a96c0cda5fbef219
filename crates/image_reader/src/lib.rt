// The image reader: one pass tests every record and changes nothing, and one loads what an accepted image states.
#![tactic(auto)]

ghost use Rattle.std.specs.Prelude.{◌≡◌, true, ◌+◌, ◌≤◌, length, set, [], Some};
ghost use Rattle.kvmi.specs.Record.{VC, MS};
ghost use Rattle.kvmi.specs.Image.{vcpu_of_row};
ghost use Rattle.store.specs.Words.{set_msr_bit};
ghost use Rattle.image_reader.specs.Read.{vcpu_loaded, HoldStated, read_of, opened_session};
ghost use Rattle.session.specs.Calls.{told};
ghost use Rattle.session.specs.State.{closed_session};
ghost use Rattle.image_reader.specs.Load.{loading, page_by, word_of, word_at, vcpus_by, pages_by};
ghost use Rattle.image_form.specs.Form.{mark_at, row_at};

use image_form::{Kind, MsRecord, PaRecord, VcRecord};
use image_step::Stated;
use kvmi::{Answer, Settings};
use page_words::{PAGE, PageWords, VIEW};
use session::{Done, Session, Shared, Tool};
use store::words;
use store::words::VcpuWords;

// The kind of the record at an offset, if it loads words. VM and EN load none.
fn loading_at(l: &[u8], at: usize) -> Option<Kind>
    ensures { result ≡ loading (mark_at l.now at) }
{
    match image_form::mark_at(l, at)? {
        Kind::Vm | Kind::En => None,
        kind => Some(kind),
    }
}

// How many page words a record loads.
fn pages_of(kind: Kind) -> usize
    ensures { result ≡ page_by kind }
{
    match kind {
        Kind::Pa => 1,
        _ => 0,
    }
}

// The word of a page.
fn word_of(record: PaRecord) -> u64
    ensures { result ≡ word_of record.view record.page record.access }
{
    (record.view % kvmi::VIEWS) as u64 * VIEW
        + (record.page % kvmi::PAGES) * PAGE
        + record.access as u64
}

#[tactic(auto, unfolding(crate::specs::Read::vcpu_loaded))]
fn load_vc(vcpus: &mut [u64], l: &[u8], at: usize)
    requires { at + 10 ≤ length l.now }
    ensures { vcpus.new ≡ vcpu_loaded vcpus.old (row_at VC l.now at).0 (vcpu_of_row (row_at VC l.now at)) }
{
    let record = VcRecord::read(l, at);
    let vcpu = record.vcpu;
    let step = record.is_stepping() as u64;
    words::write_field(vcpus, vcpu, words::SINGLESTEP, step);
    words::write_field(vcpus, vcpu, words::CRS, record.crs as u64);
    words::write_field(vcpus, vcpu, words::EVENTS, record.events as u64);
    words::write_field(vcpus, vcpu, words::PAUSES, record.pauses as u64);
}

fn load_ms(vcpus: &mut [u64], l: &[u8], at: usize)
    requires { at + 8 ≤ length l.now }
    ensures { vcpus.new ≡ set_msr_bit vcpus.old (row_at MS l.now at).0 (row_at MS l.now at).1.0 true }
{
    let record = MsRecord::read(l, at);
    words::write_msr(vcpus, record.vcpu, record.msr, true);
}

fn load_pa(pages: &mut [u64], l: &[u8], at: usize, i: usize)
    requires { at + 14 ≤ length l.now }
    ensures { pages.new ≡ set pages.old i (word_at l.now at) }
{
    let word = word_of(PaRecord::read(l, at));
    if i < pages.len() {
        pages[i] = word;
    }
}

#[tactic(auto, unfolding(crate::specs::Load::vcpus_by, crate::specs::Load::pages_by))]
fn load_record(kind: Kind, vcpus: &mut [u64], pages: &mut [u64], l: &[u8], at: usize, i: usize)
    requires { mark_at l.now at ≡ Some kind }
    ensures { (vcpus.new ≡ vcpus_by kind l.now at vcpus.old) × (pages.new ≡ pages_by kind l.now at i pages.old) }
{
    match kind {
        Kind::Vc => load_vc(vcpus, l, at),
        Kind::Ms => load_ms(vcpus, l, at),
        Kind::Pa => load_pa(pages, l, at, i),
        Kind::Vm | Kind::En => {}
    }
}

// What an accepted image states, onto cleared words. The first record is a VM.
fn load(l: &[u8], vcpus: &mut [u64], pages: &mut [u64])
    ensures { HoldStated l.now vcpus.old pages.old vcpus.new pages.new }
{
    let mut at = Kind::Vm.size();
    let mut i = 0;
    while let Some(kind) = loading_at(l, at) {
        load_record(kind, vcpus, pages, l, at, i);
        i += pages_of(kind);
        at += kind.size();
    }
}

// Open, with what an image states beside the words.
fn opened(settings: Settings, stated: Stated) -> Session
    ensures { result ≡ opened_session settings stated.events stated.pages stated.ready }
{
    let tool = Tool {
        events: stated.events,
        pages: stated.pages as u64,
        opened: 1,
        mode: 0,
        seq: 0,
    };
    Session {
        settings,
        tool,
        shared: Shared {
            ready: stated.ready,
        },
    }
}

// A session begins as an image states, on whatever words are lent. Settings out of range and an image that is not accepted
// are refused: no word changes, and the session that is handed back is closed.
pub fn read_image(
    settings: Settings,
    l: &[u8],
    vcpus: &mut VcpuWords,
    pages: &mut PageWords,
) -> Done
    ensures { told result vcpus.new pages.new [] [] ≡ read_of settings l.now vcpus.old pages.old }
{
    if !session::in_range(settings) {
        return Session::shut(settings).answers(Answer::BadSettings);
    }
    match image_test::test(settings, l) {
        Err(refusal) => Session::shut(settings).answers(Answer::from(refusal)),
        Ok(stated) => {
            words::clear(vcpus);
            words::clear(pages);
            load(l, vcpus, pages);
            opened(settings, stated).answers(kvmi::answers::done())
        }
    }
}
