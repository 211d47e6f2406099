// What each call that takes words does, once they are read.

#![tactic(auto)]

ghost use Rattle.call_answer.specs.Answer.{numbered, Answered};
ghost use Rattle.call_tasks.specs.Tasks.{under};

use call_answer::Check;
use cipher_block::Cipher;
use cipher_ffunction::FFunctions;

// What a call does under its words once checks 14 and 2 are passed.
#[derive(Clone, Copy)]
pub enum Task<'a> {
    EncryptBlock,
    DecryptBlock,
    EncryptBook,
    DecryptBook,
    // From the counter block that is given beside the note.
    CryptNote { counter: &'a [u8] },
}

// The task done under an expanded key.
#[tactic(auto, unfolding(crate::specs::Tasks::under))]
pub fn perform<F: FFunctions>(
    task: Task<'_>,
    cipher: Cipher<'_, F>,
    src: &[u8],
    out: &mut [u8],
) -> Result<u64, Check>
    ensures { Answered (under task.entry cipher.entry.expanded.now src.now
        out.old) out.old (numbered result) out.new }
{
    match task {
        Task::EncryptBlock => call_block::crypt_block(false, cipher, src, out),
        Task::DecryptBlock => call_block::crypt_block(true, cipher, src, out),
        Task::EncryptBook => book_call::encrypt_book(cipher, src, out),
        Task::DecryptBook => book_call::decrypt_book(cipher, src, out),
        Task::CryptNote { counter } => note_call::crypt_note(cipher, counter, src, out),
    }
}
