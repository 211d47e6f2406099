// The calls of planbook, each reported in one line: the call, the case, the way, the check, the
// count, and whether the output was written.
use planbook::{
    planbook_constants, planbook_crypt_note, planbook_decrypt_block, planbook_decrypt_book,
    planbook_encrypt_block, planbook_encrypt_book, planbook_expand_key, planbook_page,
};
use std::io;
use test_script::bench::Bench;
use test_script::commands::Call;

// A call with as many bytes of the key, the words, the counter block, the input and the output as
// the bench says. Each byte of the output is given one value before it.
pub fn perform(call: Call, bench: &mut Bench) -> u64 {
    bench.clear_output();
    let key = bench.key();
    let key_length = bench.key_length as u64;
    let way = bench.way as u64;
    let sheet = bench.sheet as u64;
    let words = bench.words.given();
    let counter = bench.counter.given();
    let input = bench.input.given();
    let output = bench.output.given_mut();
    match call {
        Call::Constants => planbook_constants(key_length, output),
        Call::ExpandKey => planbook_expand_key(key, way, output),
        Call::EncryptBlock => planbook_encrypt_block(words, way, input, output),
        Call::DecryptBlock => planbook_decrypt_block(words, way, input, output),
        Call::EncryptBook => planbook_encrypt_book(words, way, input, output),
        Call::DecryptBook => planbook_decrypt_book(words, way, input, output),
        Call::CryptNote => planbook_crypt_note(words, way, counter, input, output),
        Call::Page => planbook_page(input, sheet, output),
    }
}

pub fn report(rt: &impl Print, call: Call, bench: &mut Bench) -> io::Result<()> {
    bench.write_start(rt, call)?;
    let answer = perform(call, bench);
    bench.write_end(rt, answer)
}

// Expands the key into so many bytes of words, which are given from then on. No line says what came
// of it: the calls that are given the words show it.
pub fn prepare(length: usize, bench: &mut Bench) {
    bench.words.length = length;
    let key = bench.key();
    planbook_expand_key(key, bench.way as u64, bench.words.given_mut());
}
