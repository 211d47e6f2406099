// Plan books encrypted and decrypted under an expanded key; never under the key itself. (Document
// 01's terms are sealing and opening a book; a clear book has the first byte 1, and an encrypted
// one 2.)

#![tactic(auto)]

ghost use Rattle.std.specs.Prelude.{◌≡◌, not, [], length};
ghost use Rattle.clefia_spec.specs.Block.{encrypt_under, decrypt_under};
ghost use Rattle.planbook_spec.specs.Book.{map_bodies, encrypt_book_by, decrypt_book_by};
ghost use Rattle.call_answer.specs.Answer.{numbered, Answered};
ghost use Rattle.planbook_laws.specs.BookLaws.{Formed};
ghost use Rattle.book_chain.specs.Crypt.{crypted_body};
ghost use Rattle.book_form.specs.BookAnswer.{book_answer};
ghost use Rattle.book_call.specs.Directions.{kind_of, clear_body, crypted_book};

use book_check_clear::check_clear_book;
use book_check_encrypted::check_encrypted_book;
use call_answer::Check;
use cipher_block::Cipher;
use cipher_ffunction::FFunctions;

// The first byte of the book that a call is given: 2 where it is encrypted, and so to be decrypted,
// else 1.
fn kind(decrypting: bool) -> u8
    ensures { result ≡ kind_of decrypting }
{
    if decrypting {
        book_format::SEALED
    } else {
        book_format::CLEAR
    }
}

// The other book.
fn write_book<F: FFunctions>(decrypting: bool, cipher: Cipher<'_, F>, book: &[u8], out: &mut [u8])
    requires { Formed book.now × (length out.old ≡ length book.now) }
    ensures { out.new ≡ map_bodies (kind_of (not decrypting))
        (crypted_body decrypting cipher.entry.expanded.now) book.now }
{
    book_crypt_bodies::front::copy_front(kind(!decrypting), book, out);
    book_crypt_bodies::crypt_bodies(decrypting, cipher, book, out);
}

// Checks 5 to 11 of the book that a call is given. The count is that of the records.
fn check_book<F: FFunctions>(
    decrypting: bool,
    cipher: Cipher<'_, F>,
    book: &[u8],
) -> Result<u64, Check>
    ensures { numbered result ≡ book_answer (kind_of decrypting) (clear_body decrypting cipher.entry.expanded.now)
        book.now }
{
    if decrypting {
        return check_encrypted_book(cipher, book);
    }
    check_clear_book(book)
}

// Checks 4 to 11, and then the other book. Nothing is written before the last check.
fn crypt_book<F: FFunctions>(
    decrypting: bool,
    cipher: Cipher<'_, F>,
    book: &[u8],
    out: &mut [u8],
) -> Result<u64, Check>
    ensures { Answered (crypted_book decrypting cipher.entry.expanded.now book.now out.old)
        out.old (numbered result) out.new }
{
    if out.len() != book.len() {
        return Err(Check::OutputLength);
    }
    let count = check_book(decrypting, cipher, book)?;
    write_book(decrypting, cipher, book, out);
    Ok(count)
}

pub fn encrypt_book<F: FFunctions>(
    cipher: Cipher<'_, F>,
    book: &[u8],
    out: &mut [u8],
) -> Result<u64, Check>
    ensures { Answered (encrypt_book_by [] (encrypt_under cipher.entry.expanded.now) book.now
        out.old) out.old (numbered result) out.new }
{
    crypt_book(false, cipher, book, out)
}

pub fn decrypt_book<F: FFunctions>(
    cipher: Cipher<'_, F>,
    book: &[u8],
    out: &mut [u8],
) -> Result<u64, Check>
    ensures { Answered (decrypt_book_by [] (decrypt_under cipher.entry.expanded.now) book.now
        out.old) out.old (numbered result) out.new }
{
    crypt_book(true, cipher, book, out)
}
