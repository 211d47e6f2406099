// The eight calls, as C gets them from planbook_c: each turns the answer of the call below into the
// 64-bit number, and nothing else. No call has a precondition.

#![tactic(auto)]

ghost use Rattle.planbook_spec.specs.Outcome.{Answers};
ghost use Rattle.planbook_spec.specs.Checks.{constants_call, expand_key_call, encrypt_block_call, decrypt_block_call};
ghost use Rattle.planbook_spec.specs.Book.{encrypt_book_call, decrypt_book_call};
ghost use Rattle.planbook_spec.specs.Note.{crypt_note_call};
ghost use Rattle.planbook_spec.specs.Page.{page_call};

use call_tasks::Task;

#[unsafe(no_mangle)]
pub extern "C" fn planbook_constants(key_length: u64, out: &mut [u8]) -> u64
    ensures { Answers (constants_call key_length out.old) out.old result out.new }
{
    call_answer::answer_number(call_constants::constants(key_length, out))
}

#[unsafe(no_mangle)]
pub extern "C" fn planbook_expand_key(key: &[u8], way: u64, out: &mut [u8]) -> u64
    ensures { Answers (expand_key_call key.now way out.old) out.old result
        out.new }
{
    call_answer::answer_number(call_expand_key::expand_key(key, way, out))
}

#[unsafe(no_mangle)]
pub extern "C" fn planbook_encrypt_block(
    words: &[u8],
    way: u64,
    block: &[u8],
    out: &mut [u8],
) -> u64
    ensures { Answers (encrypt_block_call words.now way block.now out.old)
        out.old result out.new }
{
    call_answer::answer_number(call_with_words::call(Task::EncryptBlock, words, way, block, out))
}

#[unsafe(no_mangle)]
pub extern "C" fn planbook_decrypt_block(
    words: &[u8],
    way: u64,
    block: &[u8],
    out: &mut [u8],
) -> u64
    ensures { Answers (decrypt_block_call words.now way block.now out.old)
        out.old result out.new }
{
    call_answer::answer_number(call_with_words::call(Task::DecryptBlock, words, way, block, out))
}

#[unsafe(no_mangle)]
pub extern "C" fn planbook_encrypt_book(words: &[u8], way: u64, book: &[u8], out: &mut [u8]) -> u64
    ensures { Answers (encrypt_book_call words.now way book.now out.old)
        out.old result out.new }
{
    call_answer::answer_number(call_with_words::call(Task::EncryptBook, words, way, book, out))
}

#[unsafe(no_mangle)]
pub extern "C" fn planbook_decrypt_book(words: &[u8], way: u64, book: &[u8], out: &mut [u8]) -> u64
    ensures { Answers (decrypt_book_call words.now way book.now out.old)
        out.old result out.new }
{
    call_answer::answer_number(call_with_words::call(Task::DecryptBook, words, way, book, out))
}

// One call for both directions.
#[unsafe(no_mangle)]
pub extern "C" fn planbook_crypt_note(
    words: &[u8],
    way: u64,
    counter: &[u8],
    note: &[u8],
    out: &mut [u8],
) -> u64
    ensures { Answers (crypt_note_call words.now way counter.now note.now
        out.old) out.old result out.new }
{
    call_answer::answer_number(call_with_words::call(
        Task::CryptNote { counter },
        words,
        way,
        note,
        out,
    ))
}

#[unsafe(no_mangle)]
pub extern "C" fn planbook_page(book: &[u8], sheet: u64, out: &mut [u8]) -> u64
    ensures { Answers (page_call book.now sheet out.old) out.old result
        out.new }
{
    call_answer::answer_number(page_call::page(book, sheet, out))
}
