// DoubleSwap, and the round keys of the key schedule, four words a step.

#![tactic(auto)]

ghost use Rattle.std.specs.Prelude.{◌≡◌, ◌++◌, ◌+◌, ◌*◌, ◌%◌, ◌≤◌, length, take, ltb};
ghost use Rattle.clefia_spec.specs.Words.{four_at};
ghost use Rattle.clefia_spec.specs.KeySchedule.{double_swap, step_keys, round_keys};
ghost use Rattle.cipher_bytes.specs.ListLaws.{put_four};
ghost use Rattle.cipher_round_keys.specs.Steps.{Period};

// The bits of four words in another order: 7 to 63, 121 to 127, 0 to 6, 64 to 120.
fn double_swap(x: [u32; 4]) -> [u32; 4]
    ensures { result ≡ double_swap x }
{
    [
        x[0] % 33554432 * 128 + x[1] / 33554432 % 128,
        x[1] % 33554432 * 128 + x[3] % 128,
        x[0] / 33554432 % 128 * 33554432 + x[2] / 128 % 33554432,
        x[2] % 128 * 33554432 + x[3] / 128 % 33554432,
    ]
}

fn four_at(expanded: &[u32], at: usize) -> [u32; 4]
    requires { at + 4 ≤ length expanded.now }
    ensures { result ≡ four_at expanded.now at }
{
    std::array::from_fn(|i| expanded[at + i])
}

// The four round keys of step i, with the constants at `at`.
fn step_keys(i: usize, con: &[u32], at: usize, k: [u32; 4], l: [u32; 4]) -> [u32; 4]
    requires { at + 4 ≤ length con.now }
    ensures { result ≡ step_keys i (four_at con.now at) k l }
{
    let m = cipher_bytes::xors4(four_at(con, at), l);
    if i % 2 == 1 {
        return cipher_bytes::xors4(k, m);
    }
    m
}

// Step i: its round keys written after the first four words and those of the steps before, and l
// moved on to what follows it.
fn step(i: usize, base: usize, con: &[u32], k: [u32; 4], l: &mut [u32; 4], expanded: &mut [u32])
    requires { (base + 4 * i + 4 ≤ length con.now) × (4 + 4 * i + 4 ≤ length expanded.old) }
    ensures l_after { l.new ≡ double_swap l.old }
    ensures expanded_after { expanded.new ≡ put_four expanded.old (4 + 4 * i)
        (step_keys i (four_at con.now (base + 4 * i)) k l.old) }
{
    cipher_bytes::put_four(expanded, 4 + 4 * i, step_keys(i, con, base + 4 * i, k, *l));
    *l = double_swap(*l);
}

// Whether step i uses the first of two pairs that alternate; with a period of 2 every step does. (A
// division by the period would cost more.)
fn uses_first(i: usize, period: usize) -> bool
    requires { Period period }
    ensures { result ≡ ltb (i % period) 2 }
{
    period == 2 || i % 4 < 2
}

// The round keys of n steps, written after the first four words. A step that uses the first pair
// goes by k and l, any other by k2 and l2.
pub fn round_keys(
    period: usize,
    base: usize,
    con: &[u32],
    n: usize,
    k: [u32; 4],
    k2: [u32; 4],
    l: [u32; 4],
    l2: [u32; 4],
    expanded: &mut [u32],
)
    requires period { Period period }
    requires n_in_bounds { base + 4 * n ≤ length con.now }
    requires expanded_len { length expanded.old ≡ 4 + 4 * n }
    ensures { expanded.new ≡ take 4 expanded.old
        ++ round_keys period base con.now n 0 k k2 l l2 }
{
    let mut a = l;
    let mut b = l2;
    for i in 0..n {
        if uses_first(i, period) {
            step(i, base, con, k, &mut a, expanded);
        } else {
            step(i, base, con, k2, &mut b, expanded);
        }
    }
}
