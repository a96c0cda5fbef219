// A page fault's reply: its context, and the bytes that feed the instruction whose read the fault stopped. Every function takes any bytes and numbers.
#![tactic(auto)]

ghost use Rattle.std.specs.Prelude.{◌≡◌, cond, take, drop};
ghost use Rattle.kvmi.specs.Feed.{in_context, context_fits, wants_bytes, supplied, page_feed, chosen_feed};
ghost use Rattle.feed.specs.Fed.{fed_bytes};

use kvmi::{Feed, Source};

// An address that is not known: all ones.
const UNKNOWN: u64 = u64::MAX;

// The most bytes that a reply supplies.
const CONTEXT_BYTES: u32 = 256;

// Where the supplied bytes begin in a reply's message.
const SUPPLIED_AT: u64 = 40;

// Whether an address is known, and lies among so many bytes from another on. Nothing wraps.
fn in_context(gva: u64, address: u64, size: u32) -> bool
    ensures { result ≡ in_context gva address size }
{
    gva != UNKNOWN && address <= gva && gva - address < size as u64
}

// Whether a reply's context is as it should be: its padding, its size and its rep flag.
pub fn context_fits(d: &[u8]) -> bool
    ensures { result ≡ context_fits d.now }
{
    (wire::byte(d, 28) == 0)
        & (wire::load::<u16>(d, 30) == 0)
        & (wire::load::<u32>(d, 24) <= CONTEXT_BYTES)
        & (wire::byte(d, 29) <= 1)
}

// Whether the host wants bytes: a read, bit R of the fault's access, that continues.
pub fn wants_bytes(access: u64, action: u8) -> bool
    ensures { result ≡ wants_bytes access action }
{
    action == 0 && kvmi::bits::is_on(access, 0)
}

// The guest page's bytes, from an address to the page's end.
fn page_feed(guest: usize, gpa: u64) -> Feed
    ensures { result ≡ page_feed guest gpa }
{
    if tests::page_exists(guest, gpa) {
        Feed {
            source: Source::Guest,
            at: gpa,
            length: (4096 - gpa % 4096) as u32,
        }
    } else {
        Feed {
            source: Source::Missing,
            at: 0,
            length: 0,
        }
    }
}

// The part of a message that a context supplies, from gva to its end, if gva is known and in the context.
fn supplied(gva: u64, address: u64, size: u32) -> Option<Feed>
    ensures { result ≡ cond (in_context gva address size) (Some (supplied gva address size)) None }
{
    if in_context(gva, address, size) {
        let skipped = gva - address;
        Some(Feed {
            source: Source::Message,
            at: SUPPLIED_AT + skipped,
            length: (size as u64 - skipped) as u32,
        })
    } else {
        None
    }
}

// Which bytes a reply feeds, as a part of its message or of guest memory.
pub fn chosen_feed(gva: u64, gpa: u64, guest: usize, d: &[u8]) -> Feed
    ensures { result ≡ chosen_feed gva gpa guest d.now }
{
    match supplied(gva, wire::load::<u64>(d, 16), wire::load::<u32>(d, 24)) {
        Some(feed) => feed,
        None => page_feed(guest, gpa),
    }
}

// So many bytes from a place on, as far as they are there.
fn part<'a>(bytes: &'a [u8], at: u64, n: u64) -> &'a [u8]
    ensures { result.now ≡ take n (drop at bytes.now) }
{
    let rest = bytes.get(at as usize..).unwrap_or(&[]);
    rest.get(..n as usize).unwrap_or(rest)
}

// The bytes that feed an instruction: a part of the reply's message or of guest memory, chosen by where the fault's gva lies.
pub fn fed<'a>(msg: &'a [u8], guest: &'a [u8], gva: u64, gpa: u64) -> &'a [u8]
    ensures { result.now ≡ fed_bytes msg.now guest.now gva gpa }
{
    match supplied(gva, wire::load::<u64>(msg, 24), wire::load::<u32>(msg, 32)) {
        Some(feed) => part(msg, feed.at, feed.length as u64),
        None => part(guest, gpa, 4096 - gpa % 4096),
    }
}
