// Runs the vectors of the CLEFIA specification 1.0 (2010) through the calls of planbook: the
// constants of each key length (its tables 2.8 to 2.12), and by each way the expanded key (2.5.1),
// the ciphertext and the decrypted block (2.5).
//
// The file stdout is typed from that paper. Three of the words it prints here break its own rules
// and are corrected: constant 74 of the 24-byte key, printed 9dcfabab3, is 9dcfaba3; constant 56 of
// the 32-byte key, printed fb9678f, is fbd9678f; round key 15 of the 24-byte key, printed 92cf98e,
// is 92cfc98e.
#![tactic(auto)]

use planbook::{
    planbook_constants, planbook_decrypt_block, planbook_encrypt_block, planbook_expand_key,
};
use std::io;
use test_console::{Answer, Words};

// The 32-byte key of the paper. The shorter keys are its first 16 and 24 bytes.
static KEY: [u8; 32] = [
    0xff, 0xee, 0xdd, 0xcc, 0xbb, 0xaa, 0x99, 0x88, 0x77, 0x66, 0x55, 0x44, 0x33, 0x22, 0x11, 0x00,
    0xf0, 0xe0, 0xd0, 0xc0, 0xb0, 0xa0, 0x90, 0x80, 0x70, 0x60, 0x50, 0x40, 0x30, 0x20, 0x10, 0x00,
];

// What a call answered, and its output.
fn report(rt: &impl Print, name: &str, answer: u64, output: &[u8]) -> io::Result<()> {
    println!(rt; "{name}: {}", Answer::from(answer))?;
    print!(rt; "{}", Words(output))
}

// The block encrypted, and decrypted again, under the words and by one way.
fn blocks(rt: &impl Print, words: &[u8], way: u64) -> io::Result<()> {
    let plaintext = [0, 1, 2, 3, 4, 5, 6, 7, 8, 9, 10, 11, 12, 13, 14, 15];
    let mut ciphertext = [0u8; 16];
    let encrypted = planbook_encrypt_block(words, way, &plaintext, &mut ciphertext);
    report(rt, "ciphertext", encrypted, &ciphertext)?;
    let mut decrypted = [0u8; 16];
    let answer = planbook_decrypt_block(words, way, &ciphertext, &mut decrypted);
    report(rt, "decrypted block", answer, &decrypted)
}

// The constants of a key length.
fn constants(rt: &impl Print, key_length: u64, output: &mut [u8]) -> io::Result<()> {
    println!(rt; "key of {key_length} bytes")?;
    let answer = planbook_constants(key_length, output);
    report(rt, "constants", answer, output)
}

// A key expanded, and a block under its words, by one way.
fn by_way(rt: &impl Print, key: &[u8], way: u64, output: &mut [u8]) -> io::Result<()> {
    println!(rt; "way {way}")?;
    let answer = planbook_expand_key(key, way, output);
    report(rt, "expanded key, WK and then RK", answer, output)?;
    blocks(rt, output, way)
}

// The vectors of a key, with spaces for its constants and its words. The words are zeroed each
// time, so that no way can pass by what another wrote.
fn vectors(
    rt: &impl Print,
    key: &[u8],
    constants_space: &mut [u8],
    words: &mut [u8],
) -> io::Result<()> {
    constants(rt, key.len() as u64, constants_space)?;
    for way in 1..=3 {
        words.fill(0);
        by_way(rt, key, way, words)?;
    }
    Ok(())
}

fn main(rt: HostRuntime) -> io::Result<()> {
    vectors(&rt, &KEY[..16], &mut [0u8; 240], &mut [0u8; 160])?;
    vectors(&rt, &KEY[..24], &mut [0u8; 336], &mut [0u8; 192])?;
    vectors(&rt, &KEY, &mut [0u8; 368], &mut [0u8; 224])
}
