// F0 and F1, the two functions of a round, and what works them out: the boxes and a matrix byte by
// byte, or word tables, which the crate cipher_word_tables has.

#![tactic(auto)]

ghost use Rattle.std.specs.Prelude.{◌≡◌, [], ◌∷◌, ◌-◌, ◌<◌, get_or};
ghost use Rattle.clefia_spec.specs.Words.{◌⊕◌, to_digits};
ghost use Rattle.clefia_spec.specs.FFunction.{f0, f1, matrix_times, substitute};
ghost use Rattle.clefia_spec.specs.Field.{product};
ghost use Rattle.cipher_sbox.specs.Boxes.{box};
ghost use Rattle.cipher_ffunction.specs.Tables.{mix};

use cipher_gf256::product;
use cipher_sbox::Boxes;
use std::marker::PhantomData;

// What works out F0 and F1 (document 01's term for it: a way). It is a type and no value: the whole
// cipher is made once for each, with nothing to choose in a round.
pub trait FFunctions {
    // F0 of x under the round key k, added to y. A round waits for the sum, and what is known first
    // is added first (DECISIONS, "F adds its result").
    fn f0(k: u32, x: u32, y: u32) -> u32
        ensures { result ≡ y ⊕ f0 k x };

    // F1 likewise.
    fn f1(k: u32, x: u32, y: u32) -> u32
        ensures { result ≡ y ⊕ f1 k x };

    // Whether F waits for its tables, so that four blocks at once take less time than one after the
    // other.
    fn waits() -> bool;
}

// The four bytes of a word through the boxes alternately, beginning with box i.
fn substitute<B: Boxes>(i: usize, z: u32) -> [u8; 4]
    requires { i < 2 }
    ensures { result ≡ substitute (box i) (box (1 - i)) (to_digits 256 4 z) }
{
    [
        B::substitute(i, (z / 16777216 % 256) as u8),
        B::substitute(1 - i, (z / 65536 % 256) as u8),
        B::substitute(i, (z / 256 % 256) as u8),
        B::substitute(1 - i, (z % 256) as u8),
    ]
}

// A row of a matrix, a b c d, times four bytes.
fn matrix_row(a: u8, b: u8, c: u8, d: u8, y: [u8; 4]) -> u8
    ensures { result ≡ product (get_or y 0 0) a ⊕ product (get_or y 1 0) b ⊕ product (get_or y 2 0) c ⊕ product
        (get_or y 3 0) d }
{
    product(y[0], a) ^ product(y[1], b) ^ product(y[2], c) ^ product(y[3], d)
}

// The matrix with the first row a b c d times four bytes. Row i holds the same entries in another
// order: at column j is the one at i ^ j.
fn matrix_times(a: u8, b: u8, c: u8, d: u8, y: [u8; 4]) -> u32
    ensures { result ≡ matrix_times (a ∷ b ∷ c ∷ d ∷ []) y }
{
    cipher_bytes::join(
        matrix_row(a, b, c, d, y),
        matrix_row(b, a, d, c, y),
        matrix_row(c, d, a, b, y),
        matrix_row(d, c, b, a, y),
    )
}

// F0 (f is 0) or F1 (f is 1) after the round key is added, byte by byte, added to y.
fn mix<B: Boxes>(f: usize, z: u32, y: u32) -> u32
    requires { f < 2 }
    ensures { result ≡ y ⊕ mix f z }
{
    if f == 0 {
        y ^ matrix_times(0x01, 0x02, 0x04, 0x06, substitute::<B>(0, z))
    } else {
        y ^ matrix_times(0x01, 0x08, 0x02, 0x0a, substitute::<B>(1, z))
    }
}

// F byte by byte, by whatever works out the boxes.
pub struct ByteByByte<B> {
    boxes: PhantomData<B>,
}

impl<B: Boxes> FFunctions for ByteByByte<B> {
    fn f0(k: u32, x: u32, y: u32) -> u32 {
        mix::<B>(0, k ^ x, y)
    }

    fn f1(k: u32, x: u32, y: u32) -> u32 {
        mix::<B>(1, k ^ x, y)
    }

    fn waits() -> bool {
        false
    }
}
