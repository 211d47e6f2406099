// The blocks of a note under an expanded key: counter blocks as four words, and the blocks that are
// written with them, encrypted, added.

#![tactic(auto)]

ghost use Rattle.std.specs.Prelude.{◌≡◌, ◌+◌, ◌-◌, ◌≤◌, length, drop};
ghost use borrow.Rule.Slice.PartMut.{put_mid};
ghost use Rattle.clefia_spec.specs.Words.{bytes_of, words_of, xors};
ghost use Rattle.note_blocks.specs.Counter.{counter_state, encrypted_four};

use cipher_block::Cipher;
use cipher_ffunction::FFunctions;
use cipher_network4_four_way::FourStates;

// Counter block i of a note as four words. The last one counts, and goes on at zero after its
// greatest.
pub fn counter_state(counter: [u32; 4], i: u32) -> [u32; 4]
    ensures { result ≡ counter_state counter i }
{
    let number = std::num::wrapping_add_u32(counter[3], i);
    [counter[0], counter[1], counter[2], number]
}

// The block at `at` of src, with the four words s added, written into the 16 bytes of dst. Words
// are read and written alternately, as in cipher_bytes::exchange.
fn add_words(dst: &mut [u8], s: [u32; 4], src: &[u8], at: usize)
    requires dst_len { length dst.old ≡ 16 }
    requires at_in_bounds { at + 16 ≤ length src.now }
    ensures { dst.new ≡ bytes_of (xors s (words_of 4 (drop at src.now))) }
{
    cipher_bytes::put_word(dst, 0, s[0] ^ cipher_bytes::word(src, at));
    cipher_bytes::put_word(dst, 4, s[1] ^ cipher_bytes::word(src, at + 4));
    cipher_bytes::put_word(dst, 8, s[2] ^ cipher_bytes::word(src, at + 8));
    cipher_bytes::put_word(dst, 12, s[3] ^ cipher_bytes::word(src, at + 12));
}

// The whole block of the note at `at`, with an encrypted counter block s added.
pub fn add_block(s: [u32; 4], note: &[u8], out: &mut [u8], at: usize)
    requires { (at + 16 ≤ length note.now) × (at + 16 ≤ length out.old) }
    ensures { out.new ≡ put_mid at (at + 16 - at) out.old
        (bytes_of (xors s (words_of 4 (drop at note.now)))) }
{
    let end = at + 16;
    add_words(&mut out[at..end], s, note, at);
}

// A part of a block, with the leading bytes of an encrypted counter block s added.
pub fn add_part(s: [u32; 4], part: &[u8], out: &mut [u8])
    requires { (length part.now ≤ 16) × (length out.old ≡ length part.now) }
    ensures { out.new ≡ xors (bytes_of s) part.now }
{
    let mut bytes = [0u8; 16];
    cipher_bytes::store(&mut bytes, s);
    for (i, byte) in out.iter_mut().enumerate() {
        *byte = bytes[i] ^ part[i];
    }
}

// The four counter blocks from block i on, encrypted.
pub fn encrypt_four<F: FFunctions>(cipher: Cipher<'_, F>, counter: [u32; 4], i: u32) -> FourStates
    requires { i ≤ 1020 }
    ensures { result ≡ encrypted_four cipher.entry.expanded.now counter i }
{
    let blocks = FourStates {
        a: counter_state(counter, i),
        b: counter_state(counter, i + 1),
        c: counter_state(counter, i + 2),
        d: counter_state(counter, i + 3),
    };
    cipher_block_four_way::encrypt_each(cipher, blocks)
}
