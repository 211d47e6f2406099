// S0 and S1 worked out from the rules, for way 3: no table of 256 entries.
ghost use Rattle.std.specs.Prelude.{◌≡◌, [], ◌<◌, get_or};
ghost use Rattle.clefia_spec.specs.Field.{double4, inverse};
ghost use Rattle.clefia_spec.specs.Sbox.{s0, s1};
ghost use Rattle.cipher_sbox.specs.Rules.{four_bit_boxes, FourBits, add_columns};

use cipher_gf256::all_bits::product;
use cipher_gf256::last_bit_times;

// The four-bit boxes SS0 to SS3.
const BOXES: [[u8; 16]; 4] = [
    [14, 6, 12, 10, 8, 7, 2, 15, 11, 1, 4, 0, 5, 9, 13, 3],
    [6, 4, 0, 13, 2, 11, 10, 3, 9, 12, 14, 15, 8, 7, 5, 1],
    [11, 8, 5, 14, 10, 6, 4, 12, 15, 7, 2, 3, 1, 0, 13, 9],
    [10, 2, 6, 13, 3, 4, 5, 14, 0, 7, 8, 9, 11, 15, 12, 1],
];

// Maps of bytes that keep sums, each by its images of the eight bits, lowest first: the sums of
// bits in f and in g, and the 16th power.
const F: [u8; 8] = [0x69, 0x10, 0x1c, 0x84, 0xc4, 0x0a, 0x4e, 0x01];

const G: [u8; 8] = [0x40, 0x84, 0x01, 0xa0, 0x2a, 0x18, 0x61, 0x02];

const POWER16: [u8; 8] = [0x01, 0x4c, 0x9d, 0x46, 0x5f, 0xfd, 0xd9, 0x81];

// The 14th powers of the sixteen elements that are their own 16th power, each at the place that its
// low four bits give.
const POWER14: [u8; 16] = [
    0x00, 0x01, 0x44, 0x4f, 0x92, 0x4e, 0xd7, 0xd6, 0x0b, 0xdc, 0xdd, 0x98, 0x99, 0x0a, 0x45, 0x93,
];

fn four_bit_box(i: usize, x: u8) -> u8
    requires { (i < 4) × (x < 16) }
    ensures { FourBits (get_or (get_or four_bit_boxes i []) x 0) result }
{
    BOXES[i][x as usize]
}

// x times z in GF(2^4).
fn double_four_bits(x: u8) -> u8
    requires { x < 16 }
    ensures { FourBits (double4 x) result }
{
    (x / 8 * 3) ^ (x % 8 * 2)
}

pub fn s0(x: u8) -> u8
    ensures { result ≡ s0 x }
{
    let t0 = four_bit_box(0, x / 16);
    let t1 = four_bit_box(1, x % 16);
    let u0 = t0 ^ double_four_bits(t1);
    let u1 = double_four_bits(t0) ^ t1;
    four_bit_box(2, u0) * 16 + four_bit_box(3, u1)
}

fn linear(columns: [u8; 8], x: u8) -> u8
    ensures { result ≡ add_columns columns 0 x }
{
    let mut sum: u8 = 0;
    let mut bits = x;
    for column in columns {
        sum = last_bit_times(bits, column) ^ sum;
        bits /= 2;
    }
    sum
}

// x^254 as x^16 times the 14th power of x^17, which is its own 16th power.
fn inverse(x: u8) -> u8
    ensures { result ≡ inverse x }
{
    let x16 = linear(POWER16, x);
    let x17 = product(x, x16);
    product(x16, POWER14[(x17 % 16) as usize])
}

// f, the inverse, g.
pub fn s1(x: u8) -> u8
    ensures { result ≡ s1 x }
{
    linear(G, inverse(linear(F, x) ^ 0x1e)) ^ 0x69
}
