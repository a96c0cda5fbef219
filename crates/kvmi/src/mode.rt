// The reply mode as a number: how a session keeps it.
ghost use Rattle.std.specs.Prelude.{◌≡◌};
ghost use Rattle.kvmi.specs.Mode.{mode_of_number, number_of_mode};

use crate::ReplyMode;

// The reply mode that a number stands for.
impl From<u32> for ReplyMode {
    ghost from_gives = { λ n mode. mode ≡ mode_of_number n };

    #[tactic(auto, unfolding(crate::specs::Mode::mode_of_number))]
    fn from(n: u32) -> ReplyMode {
        match n {
            0 => ReplyMode::On,
            1 => ReplyMode::Off,
            _ => ReplyMode::ErrorsOnly,
        }
    }
}

// The number of a reply mode.
impl From<ReplyMode> for u32 {
    ghost from_gives = { λ mode n. n ≡ number_of_mode mode };

    fn from(mode: ReplyMode) -> u32 {
        match mode {
            ReplyMode::On => 0,
            ReplyMode::Off => 1,
            ReplyMode::ErrorsOnly => 2,
        }
    }
}
