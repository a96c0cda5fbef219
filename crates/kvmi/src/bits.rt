// Sets of small numbers as the bits of a word.
ghost use Rattle.std.specs.Prelude.{◌≡◌};
ghost use Rattle.kvmi.specs.Bits.{is_on};

// Whether bit k is set; a word has none from 64 on.
pub fn is_on(w: u64, k: u32) -> bool
    ensures { result ≡ is_on w k }
{
    k < 64 && (w >> k) % 2 == 1
}
