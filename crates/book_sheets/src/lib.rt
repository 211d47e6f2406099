// The sheets of a book one after the other: where the entry and the body of each are.

#![tactic(auto)]

mod walk;

ghost use Rattle.std.specs.Prelude.{◌≤◌, ◌<◌};
ghost use Rattle.planbook_spec.specs.Book.{sheet_count};
ghost use Rattle.planbook_laws.specs.BookLaws.{Formed};
ghost use Rattle.book_sheets.specs.Cursors.{Placed, First, Next, Reached};

use book_format::u16_at;
pub use walk::{SheetBytes, Sheets};

#[derive(Clone, Copy)]
pub struct Cursor {
    // Where the entry of the next sheet begins, and where its body does.
    pub from: usize,
    pub at: usize,
    // How many sheets are left.
    pub left: usize,
}

// The cursor at the first sheet of a book.
pub fn first(book: &[u8]) -> Cursor
    requires { Formed book.now }
    ensures { First book.now result }
{
    let left = u16_at(book, 2);
    Cursor {
        from: book_format::HEAD_BYTES,
        at: book_format::HEAD_BYTES + book_format::ENTRY_BYTES * left,
        left,
    }
}

// The cursor after the sheet that a cursor is at. It is where that sheet's entry and body end, too.
pub fn next(book: &[u8], cursor: Cursor) -> Cursor
    requires { Placed book.now cursor × (0 < cursor.left) }
    ensures { Next book.now cursor result }
{
    let from = cursor.from;
    Cursor {
        from: from + book_format::ENTRY_BYTES,
        at: cursor.at + book_format::RECORD_BYTES * u16_at(book, from + 4),
        left: cursor.left - 1,
    }
}

// The cursor at the sheet with an index; at the number of sheets, after the last one.
pub fn seek(book: &[u8], sheet: usize) -> Cursor
    requires { Formed book.now × (sheet ≤ sheet_count book.now) }
    ensures { Reached book.now sheet result }
{
    let mut cursor = first(book);
    for _ in 0..sheet {
        cursor = next(book, cursor);
    }
    cursor
}
