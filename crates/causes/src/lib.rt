// What stands against a command, and the order in which it counts.
#![tactic(auto)]

ghost use Rattle.std.specs.Prelude.{◌≡◌};
ghost use Rattle.causes.specs.Causes.{first_causes, decided, refused_unready};

use kvmi::{Change, Verdict};

// The codes are numbers and no enum, since a reply carries them as they are (`reply_bytes`).
pub const EPERM: i32 = -1;

pub const ENOENT: i32 = -2;

pub const EAGAIN: i32 = -11;

pub const EBUSY: i32 = -16;

pub const EINVAL: i32 = -22;

pub const EOPNOTSUPP: i32 = -95;

pub const ENOSYS: i32 = -1000;

// A field for each cause, in the order of their codes; the last has none, and closes the session.
#[derive(Clone, Copy, Default)]
pub struct Causes {
    pub invalid: bool,
    pub unready: bool,
    pub denied: bool,
    pub unsupported: bool,
    pub busy: bool,
    pub absent: bool,
    pub closing: bool,
}

impl Causes {
    pub fn new(invalid: bool, unready: bool) -> Self
        ensures { result ≡ first_causes invalid unready }
    {
        Causes {
            invalid,
            unready,
            ..Causes::default()
        }
    }

    // The first cause that applies, or else the change.
    #[tactic(auto, unfolding(crate::specs::Causes::decided))]
    pub fn decide(self, change: Change) -> Verdict
        ensures { result ≡ decided self change }
    {
        if self.invalid {
            return Verdict::Fails(EINVAL);
        }
        if self.unready {
            return Verdict::Fails(EAGAIN);
        }
        if self.denied {
            return Verdict::Fails(EPERM);
        }
        if self.unsupported {
            return Verdict::Fails(EOPNOTSUPP);
        }
        if self.busy {
            return Verdict::Fails(EBUSY);
        }
        if self.absent {
            return Verdict::Fails(ENOENT);
        }
        if self.closing {
            return Verdict::Closes;
        }
        Verdict::Does(change)
    }
}

// Of a command that names a vCPU which is not ready: what is invalid counts first.
pub fn unready(invalid: bool) -> Verdict
    ensures { result ≡ refused_unready invalid }
{
    if invalid {
        return Verdict::Fails(EINVAL);
    }
    Verdict::Fails(EAGAIN)
}
