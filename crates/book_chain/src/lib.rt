// The chain of a sheet: CBC (NIST SP 800-38A). Each step answers its block, and leaves the chain as
// the next one wants it.

#![tactic(auto)]

ghost use Rattle.std.specs.Prelude.{◌≡◌, length, drop};
ghost use Rattle.clefia_spec.specs.Words.{words_of};
ghost use Rattle.book_chain.specs.Chain.{encrypt_step, decrypt_step};
ghost use Rattle.book_chain.specs.Crypt.{crypt_step};

use cipher_block::Cipher;
use cipher_ffunction::FFunctions;

#[derive(Drop)]
pub struct Chain {
    // The encrypted block that went before, or the iv.
    pub previous: [u32; 4],
}

impl Chain {
    // A sheet's chain begins at the iv of its entry.
    pub fn new(entry: &[u8]) -> Chain
        requires { length entry.now ≡ 24 }
        ensures { result.previous ≡ words_of 4 (drop 8 entry.now) }
    {
        Chain {
            previous: cipher_bytes::load(entry, 8),
        }
    }

    pub fn encrypt<F: FFunctions>(&mut self, cipher: Cipher<'_, F>, block: [u32; 4]) -> [u32; 4]
        ensures block { result ≡ (encrypt_step cipher.entry.expanded.now self.old block).block }
        ensures next { self.new ≡ (encrypt_step cipher.entry.expanded.now self.old block).next }
    {
        let previous = self.previous;
        let encrypted = cipher.encrypt_words(cipher_bytes::xors4(previous, block));
        self.previous = encrypted;
        encrypted
    }

    pub fn decrypt<F: FFunctions>(&mut self, cipher: Cipher<'_, F>, block: [u32; 4]) -> [u32; 4]
        ensures block { result ≡ (decrypt_step cipher.entry.expanded.now self.old block).block }
        ensures next { self.new ≡ (decrypt_step cipher.entry.expanded.now self.old block).next }
    {
        let previous = self.previous;
        let clear = cipher_bytes::xors4(previous, cipher.decrypt_words(block));
        self.previous = block;
        clear
    }

    // In either direction.
    pub fn crypt<F: FFunctions>(
        &mut self,
        decrypting: bool,
        cipher: Cipher<'_, F>,
        block: [u32; 4],
    ) -> [u32; 4]
        ensures block { result ≡ (crypt_step decrypting cipher.entry.expanded.now self.old block).block }
        ensures next { self.new ≡ (crypt_step decrypting cipher.entry.expanded.now self.old block).next }
    {
        if decrypting {
            self.decrypt(cipher, block)
        } else {
            self.encrypt(cipher, block)
        }
    }
}
