// Arithmetic on bytes as elements of GF(2^8) modulo z^8 + z^4 + z^3 + z^2 + 1.

#![tactic(auto)]

pub mod all_bits;

ghost use Rattle.std.specs.Prelude.{◌≡◌, ◌*◌, ◌%◌, ◌<◌};
ghost use Rattle.clefia_spec.specs.Words.{◌⊕◌};
ghost use Rattle.clefia_spec.specs.Field.{double8, product};

// x times z. The polynomial's highest bit cancels the bit that the doubling shifts out, so 1d is
// what is left of 11d. Which of the two parts comes first was measured (DECISIONS, "In a doubling
// the shifted byte").
pub fn double(x: u8) -> u8
    ensures { result ≡ double8 x }
{
    (x % 128 * 2) ^ (x / 128 * 0x1d)
}

// x where the last bit of y is set, else 0.
pub fn last_bit_times(y: u8, x: u8) -> u8
    ensures { result ≡ y % 2 * x }
{
    y % 2 * x
}

// The sum after a turn: x is added where the last bit of y is set. It requires a set bit in y, so a
// loop that makes a needless turn cannot be proved.
fn add_last_bit(sum: u8, x: u8, y: u8) -> u8
    requires { 0 < y }
    ensures { result ≡ y % 2 * x ⊕ sum }
{
    last_bit_times(y, x) ^ sum
}

// x times y, by doublings of x through the bits of the multiplier y, lowest first, until no set bit
// is left. The turns are counted for the compiler: it unrolls a loop only where it knows how long
// it can get, and then a known multiplier costs its own turns and no test (DECISIONS, "Its turns
// are counted").
pub fn product(x: u8, y: u8) -> u8
    ensures { result ≡ product x y }
{
    if y == 0 {
        return 0;
    }
    let mut sum: u8 = 0;
    let mut shifted = x;
    let mut bits = y;
    for _ in 0..u8::BITS {
        sum = add_last_bit(sum, shifted, bits);
        bits /= 2;
        if bits == 0 {
            return sum;
        }
        shifted = double(shifted);
    }
    sum
}
