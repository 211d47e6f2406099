// The product for multipliers that are not known beforehand: way 3 works out inverses with it.
ghost use Rattle.std.specs.Prelude.{◌≡◌};
ghost use Rattle.clefia_spec.specs.Field.{product};

use super::{double, last_bit_times};

// x times y, by all eight bits of y. A loop that ends early would take a time that depends on
// secret bits here; and it was slower (DECISIONS, "Way 3 works out inverses").
pub fn product(x: u8, y: u8) -> u8
    ensures { result ≡ product x y }
{
    let mut sum: u8 = 0;
    let mut shifted = x;
    let mut bits = y;
    for _ in 0..u8::BITS {
        sum = last_bit_times(bits, shifted) ^ sum;
        shifted = double(shifted);
        bits /= 2;
    }
    sum
}
