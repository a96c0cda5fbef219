// The MS records of an image, from the lent words: one pass over them counts, and marks the fours of words that have a switch on; the next
// writes, and reads these fours alone. A record is stored into the part of the output that it fills, so that its stores need no tests.
#![tactic(auto)]

ghost use Rattle.std.specs.Prelude.{◌≡◌, ℕ, ◌+◌, ◌*◌, ◌≤◌, ◌<◌, min, length};
ghost use Rattle.wire.specs.Bytes.{store};
ghost use Rattle.kvmi.specs.Record.{write};
ghost use Rattle.kvmi.specs.Image.{ms_record};
ghost use Rattle.store.specs.Meaning.{msrs_of};
ghost use Rattle.image_msrs.specs.Switches.{ms_bytes, msr_of_switch, one_at, switches_from, bits_from, four_at, four_bits, four_of, Marked, Marks, SwitchesPut};

mod bits;

use bits::BitsOn;
use msrs::PLACES;
use store::words::{BLOCK_WORDS, MSRS};

// How many switches four words have, 64 each.
const FOUR: usize = 256;

// Four words side by side: all words of switches are looked at in fours, of which most are 0. Four fields and no array: each word is named by
// itself, here and in `four_bits`, and is kept in a register.
#[derive(Clone, Copy)]
struct Four {
    a: u64,
    b: u64,
    c: u64,
    d: u64,
}

// What is found in a vCPU's words: how many switches are on, and which fours have one, the first in the lowest bit.
#[derive(Clone, Copy)]
struct Found {
    on: usize,
    fours: u64,
}

// Four j of a vCPU's words. Words past the end of the slice count as 0.
fn read_four(words: &[u64], v: usize, j: usize) -> Four
    requires { (v < 16) × (j < 64) }
    ensures { result ≡ four_at words.now (v * 272 + 16 + 4 * j) }
{
    let at = v * BLOCK_WORDS + MSRS + 4 * j;
    Four {
        a: store::words::word(words, at),
        b: store::words::word(words, at + 1),
        c: store::words::word(words, at + 2),
        d: store::words::word(words, at + 3),
    }
}

// How many bits of four words are on, whichever switches they are.
#[tactic(auto, using(crate::proofs::Switches::four_few))]
fn count_four(f: Four) -> usize
    ensures { (g : ℕ) → result ≡ length (four_bits f g) }
{
    if (f.a | f.b | f.c | f.d) == 0 {
        return 0;
    }
    (f.a.count_ones() + f.b.count_ones() + f.c.count_ones() + f.d.count_ones()) as usize
}

// The switches of a vCPU, from its last four to its first.
#[tactic(auto, using(crate::proofs::Switches::finding_few))]
fn find(words: &[u64], v: usize) -> Found
    requires { v < 16 }
    ensures { Marked words.now v result.on result.fours }
{
    let mut on = 0;
    let mut fours = 0;
    for j in (0..64).rev() {
        let more = count_four(read_four(words, v, j));
        on += more;
        fours = if more == 0 { 2 * fours } else { 2 * fours + 1 };
    }
    Found { on, fours }
}

// How many switches of the first n vCPUs are on, with the marks of their fours.
fn find_all(words: &[u64], n: usize, marks: &mut [u64]) -> usize
    requires { (n ≤ 16) × (n ≤ length marks.old) }
    ensures { (result ≡ length (switches_from words.now 0 (n * 16384))) × Marks words.now n marks.new }
{
    let mut on = 0;
    for v in 0..n {
        let found = find(words, v);
        marks[v] = found.fours;
        on += found.on;
    }
    on
}

// The MS record of switch g, among those of all vCPUs.
fn put_ms(out: &mut [u8], at: usize, g: usize)
    requires { (at + 8 ≤ length out.old) × (g < 262144) }
    ensures { out.new ≡ store out.old at (write (ms_record (msr_of_switch g))) }
{
    let end = at + 8;
    let msr = msrs::msr_at((g % PLACES) as u16);
    image_record::ms(&mut out[at..end], (g / PLACES) as u16, msr);
}

// The MS records of the bits of a word, whose lowest is switch g. Gives the offset behind them.
fn put_bits(out: &mut [u8], at: usize, g: usize, w: u64) -> usize
    requires { (g + 64 ≤ 262144) × (at + 8 * length (bits_from one_at w g 64) ≤ length out.old) }
    ensures { SwitchesPut out.old at (bits_from one_at w g 64) out.new result }
{
    let mut to = at;
    for p in BitsOn::of(w, g) {
        put_ms(out, to, p);
        to += 8;
    }
    to
}

// The MS records of the bits of four words, whose lowest is switch g. Gives the offset behind them.
fn put_four(out: &mut [u8], at: usize, g: usize, f: Four) -> usize
    requires { (g + 256 ≤ 262144) × (at + 8 * length (four_bits f g) ≤ length out.old) }
    ensures { SwitchesPut out.old at (four_bits f g) out.new result }
{
    let b = put_bits(out, at, g, f.a);
    let c = put_bits(out, b, g + 64, f.b);
    let d = put_bits(out, c, g + 128, f.c);
    put_bits(out, d, g + 192, f.d)
}

// The MS records of the fours of a vCPU that are marked. Gives the offset behind them.
fn put_vcpu(out: &mut [u8], at: usize, words: &[u64], v: usize, fours: u64) -> usize
    requires { (v < 16) × (at + 8 * length (bits_from (four_of words.now v) fours 0 64) ≤ length out.old) }
    ensures { SwitchesPut out.old at (bits_from (four_of words.now v) fours 0 64) out.new result }
{
    let mut to = at;
    for j in BitsOn::of(fours, 0) {
        let f = read_four(words, v, j);
        to = put_four(out, to, v * PLACES + FOUR * j, f);
    }
    to
}

// The MS records of the first n vCPUs, by the marks of their fours.
fn put_switches(out: &mut [u8], at: usize, words: &[u64], n: usize, marks: &[u64])
    requires { (n ≤ 16) × (n ≤ length marks.now) × Marks words.now n marks.now × (at + 8 * length (switches_from words.now 0 (n * 16384)) ≤ length out.old) }
    ensures { out.new ≡ store out.old at (ms_bytes (switches_from words.now 0 (n * 16384))) }
{
    let mut to = at;
    for v in 0..n {
        to = put_vcpu(out, to, words, v, marks[v]);
    }
}

// How many switches of the first n vCPUs are on, of at most 16: there are no more blocks of words.
pub fn count(words: &[u64], n: u16) -> usize
    ensures { result ≡ length (msrs_of words.now 0 (min n 16)) }
{
    let mut marks = [0u64; 16];
    find_all(words, (n as usize).min(16), &mut marks)
}

// The MS records of these switches at an offset, where there is room for all of them. Gives how many there are.
pub fn put(out: &mut [u8], at: usize, words: &[u64], n: u16) -> usize
    ensures value { result ≡ length (msrs_of words.now 0 (min n 16)) }
    ensures out_after { out.new ≡ store out.old at (ms_bytes (msrs_of words.now 0 (min n 16))) }
{
    let held = (n as usize).min(16);
    let mut marks = [0u64; 16];
    let on = find_all(words, held, &mut marks);
    if at <= out.len() && 8 * on <= out.len() - at {
        put_switches(out, at, words, held, &marks);
    }
    on
}
