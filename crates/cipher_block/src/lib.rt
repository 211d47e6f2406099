// The cipher under an expanded key, and one block of 16 bytes encrypted and decrypted by it.
// (Document 01's terms are sealing and opening a block.)

#![tactic(auto)]

ghost use Rattle.std.specs.Prelude.{◌≡◌, ⊤, ℕ, ◌-◌, ◌/◌, ◌^◌, ◌<◌, ◌≤◌, length, get_or};
ghost use Rattle.clefia_spec.specs.Block.{whiten, encrypt_words, decrypt_words, encrypt_under, decrypt_under};

use cipher_ffunction::FFunctions;
use cipher_network::{inverse_network, network};
use std::alloc::AllocError;
use std::marker::PhantomData;

pub fn whiten(a: u32, b: u32, s: [u32; 4]) -> [u32; 4]
    ensures { result ≡ whiten a b s }
{
    [s[0], a ^ s[1], s[2], b ^ s[3]]
}

// The cipher under an expanded key, by F that works out F0 and F1. It is passed by value, as the
// slice of words that it is.
pub struct Cipher<'a, F> {
    pub expanded: &'a [u32],
    f: PhantomData<F>,
    // The words that whiten are there.
    ghost whitens: { 4 ≤ length expanded.now },
    ghost are_words: { (j : ℕ) → j < length expanded.now → get_or expanded.now j 0 < 2 ^ 32 },
}

impl<'a, F> Copy for Cipher<'a, F> {}

impl<'a, F> Clone for Cipher<'a, F> {
    ghost is_clone = { λ x y. y ≡ x };

    ghost is_infallible = { λ _. ⊤ };

    fn clone(&self) -> Result<Cipher<'a, F>, AllocError> {
        Ok(*self)
    }
}

impl<'a, F: FFunctions> Cipher<'a, F> {
    pub fn new(expanded: &'a [u32]) -> Cipher<'a, F>
        requires { 4 ≤ length expanded.now }
        ensures { result.expanded.now ≡ expanded.now }
    {
        Cipher {
            expanded,
            f: PhantomData,
        }
    }

    // 18, 22 or 26 rounds, by the number of words.
    pub fn round_count(self) -> usize
        ensures { result ≡ (length self.entry.expanded.now - 4) / 2 }
    {
        (self.expanded.len() - 4) / 2
    }

    pub fn encrypt_words(self, s: [u32; 4]) -> [u32; 4]
        ensures { result ≡ encrypt_words self.entry.expanded.now s }
    {
        let w = self.expanded;
        let t = network::<F, 4>(w, self.round_count(), 4, whiten(w[0], w[1], s));
        whiten(w[2], w[3], t)
    }

    pub fn decrypt_words(self, s: [u32; 4]) -> [u32; 4]
        ensures { result ≡ decrypt_words self.entry.expanded.now s }
    {
        let w = self.expanded;
        let t = inverse_network::<F, 4>(w, self.round_count(), 4, whiten(w[2], w[3], s));
        whiten(w[0], w[1], t)
    }

    pub fn encrypt_block(self, src: &[u8], dst: &mut [u8])
        requires { (length src.now ≡ 16) × (length dst.old ≡ 16) }
        ensures { dst.new ≡ encrypt_under self.entry.expanded.now src.now }
    {
        cipher_bytes::store(dst, self.encrypt_words(cipher_bytes::load(src, 0)));
    }

    pub fn decrypt_block(self, src: &[u8], dst: &mut [u8])
        requires { (length src.now ≡ 16) × (length dst.old ≡ 16) }
        ensures { dst.new ≡ decrypt_under self.entry.expanded.now src.now }
    {
        cipher_bytes::store(dst, self.decrypt_words(cipher_bytes::load(src, 0)));
    }
}
