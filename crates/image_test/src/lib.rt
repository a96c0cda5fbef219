// The test of a whole table image, record by record. It changes nothing.
#![tactic(auto)]

ghost use Rattle.std.specs.Prelude.{◌≡◌};
ghost use Rattle.kvmi.specs.Image.{load_image};
ghost use Rattle.image_test.specs.Test.{outcome, Rest};

use image_step::{Progress, Refusal, Stated, Step};
use kvmi::Settings;

// The test of the records from one on.
fn test_rest(s: Settings, l: &[u8], first: Progress) -> Result<Stated, Refusal>
    requires { Rest s l.now first (outcome (load_image s l.now)) }
    ensures { result ≡ outcome (load_image s l.now) }
{
    let mut p = first;
    loop {
        match image_step::next_step(s, l, p)? {
            Step::Next(next) => p = next,
            Step::End(stated) => return Ok(stated),
        }
    }
}

// The test of a whole image.
pub fn test(s: Settings, l: &[u8]) -> Result<Stated, Refusal>
    ensures { result ≡ outcome (load_image s l.now) }
{
    let first = image_step::first_step(s, l)?;
    test_rest(s, l, first)
}
