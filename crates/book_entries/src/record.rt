// The records of a sheet, check 11.
ghost use Rattle.std.specs.Prelude.{◌≡◌, List, ℕ, ◌+◌, ◌*◌, ◌/◌, ◌%◌, length};
ghost use Rattle.clefia_spec.specs.Words.{bytes_of};
ghost use Rattle.planbook_spec.specs.Book.{plot_holds, record_holds, sheet_holds};
ghost use Rattle.book_entries.specs.Entry.{sheet_of};

use super::entry;
use super::entry::Sheet;
use book_sheets::SheetBytes;

// What holds of the plot of a record whose third and fourth word these are.
#[tactic(auto, unfolding(planbook_spec::specs::Book::plot_holds))]
fn plot_holds(third: u32, fourth: u32) -> bool
    ensures { result ≡ plot_holds (third / 256 % 65536) (third % 256 * 256 + fourth / 16777216) }
{
    let row = third / 256 % 65536;
    let column = third % 256 * 256 + fourth / 16777216;
    row == 0 && column == 0
        || (1..=book_format::MAX_ROW).contains(&row)
            && (1..=book_format::MAX_COLUMN).contains(&column)
}

// What holds of a record, on its four words: trial; entry; replicate, row and the high byte of the
// column; its low byte and three zero bytes.
pub fn record_holds(sheet: Sheet, r: [u32; 4]) -> bool
    ensures { (e : List ℕ) → sheet ≡ sheet_of e → result ≡ record_holds e (bytes_of r) }
{
    let replicate = r[2] / 16777216;
    // `&` tries every test, which leaves the proof one way to follow.
    (r[0] == sheet.trial)
        & (1 <= r[1])
        & (1 <= replicate)
        & (replicate <= sheet.replicates)
        & plot_holds(r[2], r[3])
        & (r[3] % 16777216 == 0)
}

// The same, on its bytes.
fn bytes_hold(sheet: Sheet, bytes: &[u8]) -> bool
    requires { length bytes.now ≡ 16 }
    ensures { (e : List ℕ) → sheet ≡ sheet_of e → result ≡ record_holds e bytes.now }
{
    record_holds(sheet, cipher_bytes::load(bytes, 0))
}

// Every record of a sheet of a clear book.
pub fn clear_sheet_holds(sheet: SheetBytes<'_>) -> bool
    ensures { result ≡ sheet_holds sheet.entry.entry.now sheet.entry.body.now }
{
    let read = entry::read_sheet(sheet.entry);
    sheet
        .body
        .chunks_exact(book_format::RECORD_BYTES)
        .all(|bytes| bytes_hold(read, bytes))
}
