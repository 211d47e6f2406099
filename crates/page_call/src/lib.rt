// The call for a sheet's planting page: the checks of a whole clear book, then those of the sheet
// and of the output, and then its text.

#![tactic(auto)]

ghost use Rattle.std.specs.Prelude.{[], ◌∷◌, ◌*◌, ◌<◌};
ghost use Rattle.planbook_spec.specs.Outcome.{accepted, judged};
ghost use Rattle.planbook_spec.specs.Checks.{output_check};
ghost use Rattle.planbook_spec.specs.Book.{sheet_count};
ghost use Rattle.planbook_spec.specs.Page.{page as Page·page, line_count, page_call};
ghost use Rattle.planbook_laws.specs.BookLaws.{Formed};
ghost use Rattle.call_answer.specs.Answer.{numbered, Answered};

use book_format::u16_at;
use call_answer::Check;

// Check 4, and then the page of a sheet that there is. The count is that of the lines.
fn sheet_page(book: &[u8], sheet: usize, out: &mut [u8]) -> Result<u64, Check>
    requires { Formed book.now × (sheet < sheet_count book.now) }
    ensures { Answered (judged (output_check (32 * line_count sheet book.now) out.old ∷ [])
        (accepted (line_count sheet book.now) (Page·page sheet book.now))) out.old (numbered result)
        out.new }
{
    let cursor = book_sheets::seek(book, sheet);
    let following = book_sheets::next(book, cursor);
    let at = cursor.at;
    let end = following.at;
    let count = (end - at) / book_format::RECORD_BYTES;
    if out.len() != 32 * (count + 1) {
        return Err(Check::OutputLength);
    }
    page_text::write_page(&book[at..end], count, out);
    Ok(count as u64 + 1)
}

// Checks 5 to 11 of the whole book; check 13; and what is left for the sheet.
pub fn page(book: &[u8], sheet: u64, out: &mut [u8]) -> Result<u64, Check>
    ensures { Answered (page_call book.now sheet out.old) out.old (numbered result)
        out.new }
{
    book_check_clear::check_clear_book(book)?;
    if u16_at(book, 2) as u64 <= sheet {
        return Err(Check::SheetIndex);
    }
    sheet_page(book, sheet as usize, out)
}
