// The form of a book, checks 5 to 10, in groups. Each group answers as a call does: its first check
// that fails, or a count.

#![tactic(auto)]

ghost use Rattle.std.specs.Prelude.{◌≡◌, ◌&&◌, ◌+◌, ◌*◌, ◌≤◌, eqb, leb, length, get_or};
ghost use Rattle.planbook_spec.specs.Book.{sheet_count};
ghost use Rattle.call_answer.specs.Answer.{numbered};
ghost use Rattle.book_form.specs.Form.{head_answer, contents_answer, form_answer};

use book_entries::entry;
use book_format::u16_at;
use call_answer::Check;

fn sized(book: &[u8]) -> bool
    ensures { result ≡ (leb 4 (length book.now) && leb (length book.now) 65532) }
{
    (book_format::HEAD_BYTES..=book_format::MAX_BOOK_BYTES).contains(&book.len())
}

fn headed(kind: u8, book: &[u8]) -> bool
    requires { 4 ≤ length book.now }
    ensures { result ≡ (eqb (get_or book.now 0 0) kind && eqb (get_or book.now 1 0) 0) }
{
    book[0] == kind && book[1] == 0
}

// Checks 5 to 8. The count is the number of sheets.
#[tactic(auto, unfolding(planbook_spec::specs::Book::form_checks, planbook_spec::specs::Outcome::judged))]
pub fn check_head(kind: u8, book: &[u8]) -> Result<usize, Check>
    ensures { numbered result ≡ head_answer kind book.now }
{
    if !sized(book) {
        return Err(Check::BookLength);
    }
    if !headed(kind, book) {
        return Err(Check::BookKind);
    }
    let sheets = u16_at(book, 2);
    if book_format::MAX_SHEETS < sheets {
        return Err(Check::Sheets);
    }
    if book.len() < book_format::HEAD_BYTES + book_format::ENTRY_BYTES * sheets {
        return Err(Check::ContentsCut);
    }
    Ok(sheets)
}

// Checks 9 and 10, by a walk through the contents. The count is that of the records.
fn check_contents(book: &[u8], sheets: usize) -> Result<u64, Check>
    requires { (sheets ≡ sheet_count book.now) × (sheets ≤ 64) × (4 + 24 * sheets ≤ length book.now) }
    ensures { numbered result ≡ contents_answer book.now }
{
    let end = book_format::HEAD_BYTES + book_format::ENTRY_BYTES * sheets;
    let mut previous = 0;
    let mut records = 0;
    for entry in book[book_format::HEAD_BYTES..end].chunks_exact(book_format::ENTRY_BYTES) {
        let sheet = entry::read_entry(entry, previous).ok_or(Check::Entry)?;
        previous = sheet.trial;
        records += sheet.count;
    }
    if book.len() != end + book_format::RECORD_BYTES * records {
        return Err(Check::BodyLength);
    }
    Ok(records as u64)
}

// Checks 5 to 10; `kind` is the permitted first byte. The count is that of the records.
pub fn check_form(kind: u8, book: &[u8]) -> Result<u64, Check>
    ensures { numbered result ≡ form_answer kind book.now }
{
    let sheets = check_head(kind, book)?;
    check_contents(book, sheets)
}
