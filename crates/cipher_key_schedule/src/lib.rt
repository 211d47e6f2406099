// The expanded key of a key of 16, 24 or 32 bytes.

#![tactic(auto)]

ghost use Rattle.std.specs.Prelude.{◌≡◌, ◌++◌, ◌+◌, ◌*◌, ◌≤◌, length, take, drop};
ghost use Rattle.clefia_spec.specs.Words.{words_of, by_key_length, KeyLength};
ghost use Rattle.clefia_spec.specs.KeySchedule.{expand_short, expand_long, extend_key, expand_key};

use cipher_ffunction::FFunctions;
use cipher_network::network;
use cipher_round_keys::round_keys;
use cipher_tables::constants;

// Eight branches from two lists of four words, and each half of them.
fn joined(a: [u32; 4], b: [u32; 4]) -> [u32; 8]
    ensures { result ≡ a ++ b }
{
    [a[0], a[1], a[2], a[3], b[0], b[1], b[2], b[3]]
}

fn first_half(s: [u32; 8]) -> [u32; 4]
    ensures { result ≡ take 4 s }
{
    [s[0], s[1], s[2], s[3]]
}

fn second_half(s: [u32; 8]) -> [u32; 4]
    ensures { result ≡ drop 4 s }
{
    [s[4], s[5], s[6], s[7]]
}

// A key of four words.
fn expand_short<F: FFunctions>(k: [u32; 4], expanded: &mut [u32])
    requires expanded_len { length expanded.old ≡ 40 }
    ensures { expanded.new ≡ expand_short k }
{
    let con = constants::sixteen();
    let l = network::<F, 4>(con, 12, 0, k);
    cipher_bytes::put_four(expanded, 0, k);
    round_keys(2, 24, con, 9, k, k, l, l, expanded);
}

// A longer key, as KL and KR, with its constants and its number of steps.
fn expand_long<F: FFunctions>(
    con: &[u32],
    n: usize,
    kl: [u32; 4],
    kr: [u32; 4],
    expanded: &mut [u32],
)
    requires n_in_bounds { 40 + 4 * n ≤ length con.now }
    requires expanded_len { length expanded.old ≡ 4 + 4 * n }
    ensures { expanded.new ≡ expand_long con.now n kl kr }
{
    let l = network::<F, 8>(con, 10, 0, joined(kl, kr));
    cipher_bytes::put_four(expanded, 0, cipher_bytes::xors4(kl, kr));
    round_keys(
        4,
        40,
        con,
        n,
        kr,
        kl,
        first_half(l),
        second_half(l),
        expanded,
    );
}

// KR of a key of 24 bytes: its last two words, and its first two with every bit inverted.
fn extend_key(key: &[u8]) -> [u32; 4]
    requires { length key.now ≡ 24 }
    ensures { result ≡ extend_key (words_of 6 key.now) }
{
    [
        cipher_bytes::word(key, 16),
        cipher_bytes::word(key, 20),
        4294967295 - cipher_bytes::word(key, 0),
        4294967295 - cipher_bytes::word(key, 4),
    ]
}

// The expanded key of a key of 16, 24 or 32 bytes.
pub fn expand_key<F: FFunctions>(key: &[u8], expanded: &mut [u32])
    requires key_length { KeyLength (length key.now) }
    requires expanded_len { length expanded.old ≡ by_key_length (length key.now) 40 48 56 }
    ensures { expanded.new ≡ expand_key key.now }
{
    let k = cipher_bytes::load(key, 0);
    match key.len() {
        16 => expand_short::<F>(k, expanded),
        24 => expand_long::<F>(constants::twenty_four(), 11, k, extend_key(key), expanded),
        _ => expand_long::<F>(
            constants::thirty_two(),
            13,
            k,
            cipher_bytes::load(key, 16),
            expanded,
        ),
    }
}
