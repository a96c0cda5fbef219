// Little-endian numbers in lent slices, the message header and error codes.
// Every public function takes any slice and any offset: a number that is not all inside reads as 0, and a store that is
// not all inside changes nothing.
#![tactic(auto)]

ghost use Rattle.std.specs.Prelude.{◌≡◌, ℕ, ◌+◌, ◌≤◌, refl, min, leb, length, drop, get_or, replicate};
ghost use Rattle.wire.specs.Bytes.{le, load, store, bytes_at};
ghost use Rattle.wire.specs.Header.{header_of};
ghost use Rattle.wire.specs.Code.{negated, twos, code_bytes};

// What stands at the start of a message.
#[derive(Clone, Copy)]
pub struct Header {
    pub id: u16,
    pub size: u16,
    pub seq: u32,
}

// The smaller of two numbers.
pub fn smaller(a: usize, b: usize) -> usize
    ensures { result ≡ min a b }
{
    a.min(b)
}

// Whether k bytes at a place lie inside n. Nothing here can wrap, whatever the place.
fn inside(n: usize, at: usize, k: usize) -> bool
    ensures { result ≡ leb (at + k) n }
{
    at <= n && k <= n - at
}

// The byte at a place, or 0 past the end.
pub fn byte(s: &[u8], at: usize) -> u8
    ensures { result ≡ get_or s.now at 0 }
{
    s.get(at).copied().unwrap_or(0)
}

// The bytes from an offset on; past the end, none.
pub fn behind(s: &[u8], at: usize) -> &[u8]
    ensures { result.now ≡ drop at s.now }
{
    s.get(at..).unwrap_or(&[])
}

// The K bytes at a place, or zeros where they do not all lie inside.
fn bytes_at<const K: usize>(s: &[u8], at: usize) -> [u8; K]
    ensures { result ≡ bytes_at K s.now at }
{
    let mut bytes = [0; K];
    if inside(s.len(), at, K) {
        bytes.copy_from_slice(&s[at..at + K]);
    }
    bytes
}

// K bytes at a place.
fn put_bytes<const K: usize>(out: &mut [u8], at: usize, bytes: [u8; K])
    ensures { out.new ≡ store out.old at bytes.entry }
{
    let n = bytes.len();
    if inside(out.len(), at, n) {
        out[at..at + n].copy_from_slice(&bytes);
    }
}

// A number that stands in bytes, the lowest first. Both functions take any place.
pub trait Number: Copy {
    // How many bytes it takes.
    ghost WIDTH: { ℕ };

    // The number of a value.
    ghost number: { Self → ℕ };

    // The number in the bytes at a place, or 0 where they do not all lie inside.
    fn get(s: &[u8], at: usize) -> Self
        ensures { number result ≡ load WIDTH s.now at };

    // The number into the bytes at a place; nothing changes where they do not all lie inside.
    fn put(self, out: &mut [u8], at: usize)
        ensures { out.new ≡ store out.old at (le WIDTH (number self)) };
}

impl Number for u8 {
    ghost WIDTH = { 1 };

    ghost number = { λ n. n };

    fn get(s: &[u8], at: usize) -> u8 {
        byte(s, at)
    }

    fn put(self, out: &mut [u8], at: usize) {
        put_bytes(out, at, [self]);
    }
}

impl Number for u16 {
    ghost WIDTH = { 2 };

    ghost number = { λ n. n };

    fn get(s: &[u8], at: usize) -> u16 {
        u16::from_le_bytes(bytes_at(s, at))
    }

    fn put(self, out: &mut [u8], at: usize) {
        put_bytes(out, at, u16::to_le_bytes(self));
    }
}

impl Number for u32 {
    ghost WIDTH = { 4 };

    ghost number = { λ n. n };

    fn get(s: &[u8], at: usize) -> u32 {
        u32::from_le_bytes(bytes_at(s, at))
    }

    fn put(self, out: &mut [u8], at: usize) {
        put_bytes(out, at, u32::to_le_bytes(self));
    }
}

impl Number for u64 {
    ghost WIDTH = { 8 };

    ghost number = { λ n. n };

    fn get(s: &[u8], at: usize) -> u64 {
        u64::from_le_bytes(bytes_at(s, at))
    }

    fn put(self, out: &mut [u8], at: usize) {
        put_bytes(out, at, u64::to_le_bytes(self));
    }
}

// The number in the bytes at a place.
pub fn load<N: Number>(s: &[u8], at: usize) -> N
    ensures { N.number result ≡ load N.WIDTH s.now at }
{
    N::get(s, at)
}

// A number into the bytes at a place.
pub fn store<N: Number>(out: &mut [u8], at: usize, v: N)
    ensures { out.new ≡ store out.old at (le N.WIDTH (N.number v)) }
{
    v.put(out, at);
}

// Copies `src` to an offset at which all of it lies inside. It has a loop of its own: `copy_from_slice` calls the C library, and for a state block of
// 536 bytes that takes some 30 instructions more.
fn copy_short(out: &mut [u8], at: usize, src: &[u8])
    requires { at + length src.now ≤ length out.old }
    ensures { out.new ≡ store out.old at src.now }
{
    for i in 0..src.len() {
        out[at + i] = src[i];
    }
}

// The bytes of `src` at a place.
pub fn copy(out: &mut [u8], at: usize, src: &[u8])
    ensures { out.new ≡ store out.old at src.now }
{
    let n = src.len();
    if inside(out.len(), at, n) {
        if n <= 1024 {
            copy_short(out, at, src);
        } else {
            out[at..at + n].copy_from_slice(src);
        }
    }
}

// The byte v, n times, at a place.
pub fn fill(out: &mut [u8], at: usize, n: usize, v: u8)
    ensures { out.new ≡ store out.old at (replicate n v) }
{
    if inside(out.len(), at, n) {
        out[at..at + n].fill(v);
    }
}

// The header of a message whose bytes are all there, none missing and none left over.
pub fn read_header(s: &[u8]) -> Option<Header>
    ensures { result ≡ header_of s.now }
{
    let n = s.len();
    if n < 8 {
        return None;
    }
    let size: u16 = load(s, 2);
    if n - 8 == size as usize {
        Some(Header {
            id: load(s, 0),
            size,
            seq: load(s, 4),
        })
    } else {
        None
    }
}

// A code's negation, in 64 bits: that of the smallest i32 is no i32.
pub fn negate(e: i32) -> i64
    ensures { result ≡ negated e }
{
    -(e as i64)
}

// The two's complement of a code.
pub fn twos_complement(e: i32) -> u32
    ensures { result ≡ twos e }
{
    e.cast_unsigned()
}

// A code's two's complement into the 4 bytes at a place.
pub fn store_code(out: &mut [u8], at: usize, e: i32)
    ensures { out.new ≡ store out.old at (code_bytes e) }
{
    store(out, at, twos_complement(e));
}
