// Checks 5 to 11 of a clear book. They need neither a key nor tables.

#![tactic(auto)]

ghost use Rattle.std.specs.Prelude.{◌≡◌};
ghost use Rattle.planbook_spec.specs.Book.{as_it_is, contents, bodies, sheets_hold};
ghost use Rattle.planbook_laws.specs.BookLaws.{Formed};
ghost use Rattle.call_answer.specs.Answer.{numbered};
ghost use Rattle.book_form.specs.BookAnswer.{book_answer};

use book_entries::record;
use book_sheets::Sheets;
use call_answer::Check;

// Check 11, of a book whose form holds.
fn clear_records_hold(book: &[u8]) -> bool
    requires { Formed book.now }
    ensures { result ≡ sheets_hold as_it_is (contents book.now) (bodies book.now) }
{
    Sheets::new(book).all(record::clear_sheet_holds)
}

// All of them. The count is that of the records.
pub fn check_clear_book(book: &[u8]) -> Result<u64, Check>
    ensures { numbered result ≡ book_answer 1 as_it_is book.now }
{
    let records = book_form::check_form(book_format::CLEAR, book)?;
    if !clear_records_hold(book) {
        return Err(Check::Record);
    }
    Ok(records)
}
