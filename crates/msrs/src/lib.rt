// Which MSRs can be switched, and where each switch stands: the one crate whose code knows the two ranges.
#![tactic(auto)]

ghost use Rattle.std.specs.Prelude.{◌≡◌};
ghost use Rattle.msrs.specs.Place.{msr_place, is_msr, msr_at};

// How many MSRs a range has, and where the second begins.
const RANGE: u32 = 8192;

const SECOND: u32 = 0xC0000000;

// How many places there are: each vCPU has a switch in each.
pub const PLACES: usize = 16384;

// The place of an MSR's switch among a vCPU's 16,384, or None if it has none. A u32 is below twice SECOND, so `range` is 0 or 1.
#[tactic(auto, unfolding(crate::specs::Place::msr_place))]
pub fn msr_place(msr: u32) -> Option<u16>
    ensures { result ≡ msr_place msr }
{
    let range = msr / SECOND;
    let offset = msr % SECOND;
    if offset < RANGE {
        let place = (RANGE * range + offset) as u16;
        Some(place)
    } else {
        None
    }
}

// Whether an MSR can be switched.
#[tactic(auto, unfolding(crate::specs::Place::is_msr))]
pub fn is_msr(msr: u32) -> bool
    ensures { result ≡ is_msr msr }
{
    msr_place(msr).is_some()
}

// The MSR of a place.
#[tactic(auto, unfolding(crate::specs::Place::msr_at))]
pub fn msr_at(place: u16) -> u32
    ensures { result ≡ msr_at place }
{
    let n = place as u32;
    if n < RANGE { n } else { n - RANGE + SECOND }
}
