// The generalised Feistel network of any number of branches, and its inverse.

#![tactic(auto)]

ghost use Rattle.std.specs.Prelude.{◌≡◌, ◌+◌, ◌*◌, ◌/◌, ◌≤◌, length};
ghost use Rattle.clefia_spec.specs.FFunction.{f0, f1};
ghost use Rattle.clefia_spec.specs.Network.{network, inverse_network};

use cipher_feistel::{feistel, rotate_left, rotate_right};
use cipher_ffunction::FFunctions;

// n rounds with the round keys from `at` on, one for each two branches.
pub fn network<F: FFunctions, const N: usize>(
    expanded: &[u32],
    n: usize,
    at: usize,
    s: [u32; N],
) -> [u32; N]
    requires { at + N / 2 * n ≤ length expanded.now }
    ensures { result ≡ network (N / 2) f0 f1 n expanded.now at s.entry }
{
    let mut t = s;
    for i in 0..n {
        t = rotate_left(feistel::<F, N>(expanded, at + N / 2 * i, t));
    }
    rotate_right(t)
}

// The same rounds undone, the last one first.
pub fn inverse_network<F: FFunctions, const N: usize>(
    expanded: &[u32],
    n: usize,
    at: usize,
    s: [u32; N],
) -> [u32; N]
    requires { at + N / 2 * n ≤ length expanded.now }
    ensures { result ≡ inverse_network (N / 2) f0 f1 n expanded.now at s.entry }
{
    let mut t = rotate_left(s);
    for i in (0..n).rev() {
        t = feistel::<F, N>(expanded, at + N / 2 * i, rotate_right(t));
    }
    t
}
