// The bits of a word that are on, as an iterator.
ghost use Rattle.std.specs.Prelude.{◌≡◌, ℕ, ◌+◌, ◌-◌, ◌≤◌, ◌<◌, ◌^◌};
ghost use Rattle.std.specs.Iterator.{at_most};
ghost use Rattle.image_msrs.specs.Switches.{NextOn};

// From the lowest up, as numbers in a row of bits. The lowest bit of `left` is number `at`, and those before it were given. No code reads
// `end`: it says where the word ends.
#[derive(Drop)]
pub struct BitsOn {
    left: u64,
    at: usize,
    end: usize,
    ghost inside: { at ≤ end },
    ghost few: { end ≤ at + 64 },
    ghost small: { end ≤ 2 ^ 32 },
    ghost fits: { left < 2 ^ (end - at) },
}

impl BitsOn {
    // All bits of a word that are on; its lowest bit is number `first`.
    pub(crate) fn of(word: u64, first: usize) -> Self
        requires { first ≤ 262144 }
        ensures { (result.left ≡ word) × (result.at ≡ first) × (result.end ≡ first + 64) }
    {
        BitsOn {
            left: word,
            at: first,
            end: first + 64,
        }
    }
}

impl Iterator for BitsOn {
    type Item = usize;

    ghost next_gives = { λ s bit t. NextOn s.left s.at s.end bit t.left t.at t.end };

    ghost remaining = { λ s. at_most (s.end - s.at) };

    // The lowest bit that is left. Two shifts, since one by 64 would be out of range.
    fn next(&mut self) -> Option<usize> {
        if self.left == 0 {
            return None;
        }
        let k = self.left.trailing_zeros() as usize;
        let bit = self.at + k;
        self.left = self.left >> k >> 1;
        self.at = bit + 1;
        Some(bit)
    }
}
