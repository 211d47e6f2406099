// One round of the generalised Feistel network on any number of branches: the Feistel step, and the
// branches rotated. A state is an array of words, passed and returned by value.

#![tactic(auto)]

ghost use Rattle.std.specs.Prelude.{◌≡◌, ℕ, ◌+◌, ◌/◌, ◌≤◌, List, length, get_or};
ghost use Rattle.clefia_spec.specs.FFunction.{f0, f1};
ghost use Rattle.clefia_spec.specs.Network.{feistel, rotate_left, rotate_right};

use cipher_ffunction::FFunctions;

// (The loops stay in registers; the methods of slices do not.)
pub fn rotate_left<const N: usize>(s: [u32; N]) -> [u32; N]
    ensures { result ≡ rotate_left s.entry }
{
    let mut t = s;
    for i in 0..N {
        t[i] = s[(i + 1) % N];
    }
    t
}

pub fn rotate_right<const N: usize>(s: [u32; N]) -> [u32; N]
    ensures { result ≡ rotate_right s.entry }
{
    let mut t = s;
    for i in 0..N {
        t[i] = s[(i + N - 1) % N];
    }
    t
}

// The Feistel step of a round with the round keys from `at` on: F0 and F1 alternately.
pub fn feistel<F: FFunctions, const N: usize>(expanded: &[u32], at: usize, s: [u32; N]) -> [u32; N]
    requires { at + N / 2 ≤ length expanded.now }
    ensures { result ≡ feistel f0 f1 expanded.now at s.entry }
{
    let mut t = s;
    for i in 0..N / 2 {
        let k = expanded[at + i];
        let x = s[2 * i];
        let y = s[2 * i + 1];
        t[2 * i + 1] = if i % 2 == 0 {
            F::f0(k, x, y)
        } else {
            F::f1(k, x, y)
        };
    }
    t
}

// The step of four branches with the round keys a and b, from whatever list they come.
pub fn feistel4<F: FFunctions>(a: u32, b: u32, s: [u32; 4]) -> [u32; 4]
    ensures { (expanded : List ℕ) (i : ℕ) → a ≡ get_or expanded i 0 → b ≡ get_or expanded (i + 1) 0
        → result ≡ feistel f0 f1 expanded i s }
{
    feistel::<F, 4>(&[a, b], 0, s)
}
