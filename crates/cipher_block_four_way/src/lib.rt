// Four blocks at once, encrypted and decrypted under expanded words.

#![tactic(auto)]

ghost use Rattle.std.specs.Prelude.{◌≡◌, ◌+◌, ◌≤◌, length};
ghost use Rattle.clefia_spec.specs.Block.{whiten, encrypt_words, decrypt_words};
ghost use Rattle.cipher_network4_four_way.specs.Four.{each};
ghost use Rattle.cipher_block_four_way.specs.FourBlocks.{decrypted_four};

use cipher_block::{Cipher, whiten};
use cipher_ffunction::FFunctions;
use cipher_network4_four_way::FourStates;

fn whiten_each(a: u32, b: u32, s: FourStates) -> FourStates
    ensures { result ≡ each (whiten a b) s }
{
    s.map(
        |t: [u32; 4]| -> [u32; 4]
            ensures { result ≡ whiten a b t }
        { whiten(a, b, t) },
    )
}

pub fn encrypt_each<F: FFunctions>(cipher: Cipher<'_, F>, s: FourStates) -> FourStates
    ensures { result ≡ each (encrypt_words cipher.entry.expanded.now) s }
{
    let w = cipher.expanded;
    let t = cipher_network4_four_way::network4_each::<F>(
        w,
        cipher.round_count(),
        4,
        whiten_each(w[0], w[1], s),
    );
    whiten_each(w[2], w[3], t)
}

pub fn decrypt_each<F: FFunctions>(cipher: Cipher<'_, F>, s: FourStates) -> FourStates
    ensures { result ≡ each (decrypt_words cipher.entry.expanded.now) s }
{
    let w = cipher.expanded;
    let t = cipher_network4_four_way::inverse_network4_each::<F>(
        w,
        cipher.round_count(),
        4,
        whiten_each(w[2], w[3], s),
    );
    whiten_each(w[0], w[1], t)
}

// The four blocks at `at` of a body, decrypted and not yet added to those before them.
pub fn decrypt_four<F: FFunctions>(cipher: Cipher<'_, F>, body: &[u8], at: usize) -> FourStates
    requires { at + 64 ≤ length body.now }
    ensures { result ≡ decrypted_four cipher.entry.expanded.now body.now at }
{
    let second = at + 16;
    let third = second + 16;
    let fourth = third + 16;
    let read = FourStates {
        a: cipher_bytes::load(body, at),
        b: cipher_bytes::load(body, second),
        c: cipher_bytes::load(body, third),
        d: cipher_bytes::load(body, fourth),
    };
    decrypt_each(cipher, read)
}
