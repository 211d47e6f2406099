// Four states that go through the same rounds at once: while one waits for its tables, the others
// are worked on (DECISIONS, "Opening by word tables decrypts").

#![tactic(auto)]

ghost use Rattle.std.specs.Prelude.{◌≡◌, ◌+◌, ◌*◌, ◌≤◌, length};
ghost use Rattle.clefia_spec.specs.FFunction.{f0, f1};
ghost use Rattle.clefia_spec.specs.Network.{feistel, rotate_left, rotate_right, rounds, undo_rounds, network4};
ghost use Rattle.clefia_spec.specs.Network.{inverse_network4};
ghost use Rattle.cipher_network4_four_way.specs.Four.{each};

use cipher_feistel::{feistel, rotate_left, rotate_right};
use cipher_ffunction::FFunctions;
use cipher_network::{inverse_network, network};

#[derive(Drop)]
pub struct FourStates {
    pub a: [u32; 4],
    pub b: [u32; 4],
    pub c: [u32; 4],
    pub d: [u32; 4],
}

impl FourStates {
    // The same done to each. It has to be inlined: as a call it keeps the states in memory, and the
    // rounds take a third longer.
    #[inline(always)]
    pub fn map<G: Fn([u32; 4]) -> [u32; 4]>(self, g: G) -> FourStates
        requires { G.IsAlwaysCallable g }
        ensures a { G.post g self.a result.a }
        ensures b { G.post g self.b result.b }
        ensures c { G.post g self.c result.c }
        ensures d { G.post g self.d result.d }
    {
        let a = self.a;
        let b = self.b;
        let c = self.c;
        let d = self.d;
        let p = g(a);
        let q = g(b);
        let r = g(c);
        let t = g(d);
        FourStates {
            a: p,
            b: q,
            c: r,
            d: t,
        }
    }
}

fn rotate_left_each(s: FourStates) -> FourStates
    ensures { result ≡ each rotate_left s }
{
    s.map(
        |t: [u32; 4]| -> [u32; 4]
            ensures { result ≡ rotate_left t }
        { rotate_left(t) },
    )
}

fn rotate_right_each(s: FourStates) -> FourStates
    ensures { result ≡ each rotate_right s }
{
    s.map(
        |t: [u32; 4]| -> [u32; 4]
            ensures { result ≡ rotate_right t }
        { rotate_right(t) },
    )
}

// A round of each state.
#[inline(always)]
fn round_of_each<F: FFunctions>(expanded: &[u32], at: usize, s: FourStates) -> FourStates
    requires { at + 2 ≤ length expanded.now }
    ensures { result ≡ each (λ t. rotate_left (feistel f0 f1 expanded.now at t)) s }
{
    s.map(
        |t: [u32; 4]| -> [u32; 4]
            requires { at + 2 ≤ length expanded.now }
            ensures { result ≡ rotate_left (feistel f0 f1 expanded.entry.now at t) }
        { rotate_left(feistel::<F, 4>(expanded, at, t)) },
    )
}

// The same round undone.
#[inline(always)]
fn undo_round_of_each<F: FFunctions>(expanded: &[u32], at: usize, s: FourStates) -> FourStates
    requires { at + 2 ≤ length expanded.now }
    ensures { result ≡ each (λ t. feistel f0 f1 expanded.now at (rotate_right t)) s }
{
    s.map(
        |t: [u32; 4]| -> [u32; 4]
            requires { at + 2 ≤ length expanded.now }
            ensures { result ≡ feistel f0 f1 expanded.entry.now at (rotate_right t) }
        { feistel::<F, 4>(expanded, at, rotate_right(t)) },
    )
}

// Two rounds of each state. All states go through the first round before the second (DECISIONS,
// "All rows go through a round").
fn two_rounds<F: FFunctions>(expanded: &[u32], at: usize, s: FourStates) -> FourStates
    requires { at + 4 ≤ length expanded.now }
    ensures { result ≡ each (rounds 2 f0 f1 2 expanded.now at) s }
{
    let t = round_of_each::<F>(expanded, at, s);
    round_of_each::<F>(expanded, at + 2, t)
}

// The same two rounds undone.
fn undo_two_rounds<F: FFunctions>(expanded: &[u32], at: usize, s: FourStates) -> FourStates
    requires { at + 4 ≤ length expanded.now }
    ensures { result ≡ each (undo_rounds 2 f0 f1 2 expanded.now at) s }
{
    let t = undo_round_of_each::<F>(expanded, at + 2, s);
    undo_round_of_each::<F>(expanded, at, t)
}

// Twice n rounds, two in a turn.
fn rounds_by_two<F: FFunctions>(expanded: &[u32], n: usize, at: usize, s: FourStates) -> FourStates
    requires { at + 4 * n ≤ length expanded.now }
    ensures { result ≡ each (rounds 2 f0 f1 (2 * n) expanded.now at) s }
{
    let mut t = s;
    for i in 0..n {
        t = two_rounds::<F>(expanded, at + 4 * i, t);
    }
    t
}

// The same rounds undone.
fn undo_by_two<F: FFunctions>(expanded: &[u32], n: usize, at: usize, s: FourStates) -> FourStates
    requires { at + 4 * n ≤ length expanded.now }
    ensures { result ≡ each (undo_rounds 2 f0 f1 (2 * n) expanded.now at) s }
{
    let mut t = s;
    for i in (0..n).rev() {
        t = undo_two_rounds::<F>(expanded, at + 4 * i, t);
    }
    t
}

// The network on each state. Where F waits for nothing, the states go one by one.
pub fn network4_each<F: FFunctions>(
    expanded: &[u32],
    n: usize,
    at: usize,
    s: FourStates,
) -> FourStates
    requires { at + 2 * n ≤ length expanded.now }
    ensures { result ≡ each (network4 n expanded.now at) s }
{
    if F::waits() && n % 2 == 0 {
        return rotate_right_each(rounds_by_two::<F>(expanded, n / 2, at, s));
    }
    s.map(
        |t: [u32; 4]| -> [u32; 4]
            requires { at + 2 * n ≤ length expanded.now }
            ensures { result ≡ network4 n expanded.entry.now at t }
        { network::<F, 4>(expanded, n, at, t) },
    )
}

// Its inverse.
pub fn inverse_network4_each<F: FFunctions>(
    expanded: &[u32],
    n: usize,
    at: usize,
    s: FourStates,
) -> FourStates
    requires { at + 2 * n ≤ length expanded.now }
    ensures { result ≡ each (inverse_network4 n expanded.now at) s }
{
    if F::waits() && n % 2 == 0 {
        return undo_by_two::<F>(expanded, n / 2, at, rotate_left_each(s));
    }
    s.map(
        |t: [u32; 4]| -> [u32; 4]
            requires { at + 2 * n ≤ length expanded.now }
            ensures { result ≡ inverse_network4 n expanded.entry.now at t }
        { inverse_network::<F, 4>(expanded, n, at, t) },
    )
}
