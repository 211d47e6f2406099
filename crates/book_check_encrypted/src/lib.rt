// Checks 5 to 11 of an encrypted book. Its records are decrypted, looked at and dropped again.

#![tactic(auto)]

ghost use Rattle.std.specs.Prelude.{◌≡◌};
ghost use Rattle.clefia_spec.specs.Block.{decrypt_under};
ghost use Rattle.planbook_spec.specs.Book.{decrypt_body, contents, bodies, sheets_hold};
ghost use Rattle.planbook_laws.specs.BookLaws.{Formed};
ghost use Rattle.call_answer.specs.Answer.{numbered};
ghost use Rattle.book_form.specs.BookAnswer.{book_answer};

use book_check_sheet::decrypted_sheet_holds;
use book_sheets::Sheets;
use call_answer::Check;
use cipher_block::Cipher;
use cipher_ffunction::FFunctions;

// Check 11, of a book whose form holds.
fn decrypted_records_hold<F: FFunctions>(cipher: Cipher<'_, F>, book: &[u8]) -> bool
    requires { Formed book.now }
    ensures { result ≡ sheets_hold (decrypt_body (decrypt_under cipher.entry.expanded.now)) (contents book.now)
        (bodies book.now) }
{
    Sheets::new(book).all(|sheet| decrypted_sheet_holds(cipher, sheet))
}

// All of them. The count is that of the records.
pub fn check_encrypted_book<F: FFunctions>(cipher: Cipher<'_, F>, book: &[u8]) -> Result<u64, Check>
    ensures { numbered result ≡ book_answer 2 (decrypt_body (decrypt_under cipher.entry.expanded.now)) book.now }
{
    let records = book_form::check_form(book_format::SEALED, book)?;
    if !decrypted_records_hold(cipher, book) {
        return Err(Check::Record);
    }
    Ok(records)
}
