// Bits of a word that are set.
ghost use Rattle.std.specs.Prelude.{◌≡◌, if◌then◌else◌, nat_lt};
ghost use Rattle.kvmi.specs.Bits.{put_bit};
ghost use Rattle.kvmi.specs.Tables.{cr_bit};

// The word with bit k as given; from 64 on there is none to change.
pub fn put_bit(w: u64, k: u32, on: bool) -> u64
    ensures { result ≡ (if nat_lt k 64 then put_bit w k on else w) }
{
    if k < 64 {
        let was = (w >> k) % 2;
        w - (was << k) + ((on as u64) << k)
    } else {
        w
    }
}

// The bit of a control register's switch.
#[tactic(auto, unfolding(kvmi::specs::Tables::cr_bit))]
pub fn cr_bit(cr: u32) -> u32
    ensures { result ≡ cr_bit cr }
{
    match cr {
        0 => 0,
        3 => 1,
        _ => 2,
    }
}

// CR switches with that of one register as given.
#[tactic(auto, unfolding(kvmi::specs::Tables::cr_bit))]
pub fn put_cr(crs: u64, cr: u32, on: bool) -> u64
    ensures { result ≡ put_bit crs (cr_bit cr) on }
{
    put_bit(crs, cr_bit(cr), on)
}
