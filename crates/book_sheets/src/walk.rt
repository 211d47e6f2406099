// The sheets of a book one after the other, each as its two parts.
ghost use Rattle.std.specs.Prelude.{◌≡◌, ◌*◌, ◌/◌, length};
ghost use Rattle.planbook_spec.specs.Book.{count, record_count};
ghost use Rattle.planbook_laws.specs.BookLaws.{Formed};
ghost use Rattle.book_sheets.specs.Rows.{AreBytes, entries_of};

use book_format::{ENTRY_BYTES, HEAD_BYTES, RECORD_BYTES, u16_at};

// A sheet: its entry, and its body, which has as many records as the entry says.
#[derive(Clone, Copy)]
pub struct SheetBytes<'a> {
    pub entry: &'a [u8],
    pub body: &'a [u8],
    pub ghost entry_len: { length entry.now ≡ 24 },
    pub ghost body_len: { length body.now ≡ 16 * count entry.now },
    pub ghost entry_bytes: { AreBytes entry.now },
    pub ghost body_bytes: { AreBytes body.now },
}

// The sheets that are left: their entries, and their bodies.
#[derive(Drop)]
pub struct Sheets<'a> {
    entries: &'a [u8],
    bodies: &'a [u8],
    ghost entries_len: { length entries.now ≡ 24 * (length entries.now / 24) },
    ghost bodies_len: { length bodies.now ≡ 16 * record_count (entries_of entries.now) },
    ghost entries_bytes: { AreBytes entries.now },
    ghost bodies_bytes: { AreBytes bodies.now },
}

impl<'a> Sheets<'a> {
    ghost use Rattle.planbook_spec.specs.BookSheets.{sheets_of};
    ghost use Rattle.book_sheets.specs.Left.{sheets_left};

    // All of a book.
    pub fn new(book: &'a [u8]) -> Sheets<'a>
        requires { Formed book.now }
        ensures { sheets_left result ≡ sheets_of book.now }
    {
        let (_, rest) = book.split_at(HEAD_BYTES);
        let (entries, bodies) = rest.split_at(ENTRY_BYTES * u16_at(book, 2));
        Sheets { entries, bodies }
    }
}

impl<'a> Iterator for Sheets<'a> {
    ghost use Rattle.std.specs.Iterator.{YieldsFirstBy, item_count};
    ghost use Rattle.book_sheets.specs.Left.{sheets_left, whole_sheet};

    type Item = SheetBytes<'a>;

    ghost next_gives = { YieldsFirstBy whole_sheet sheets_left };

    ghost remaining = { item_count sheets_left };

    fn next(&mut self) -> Option<SheetBytes<'a>> {
        let (entry, entries) = self.entries.split_at_checked(ENTRY_BYTES)?;
        let (body, bodies) = self.bodies.split_at(RECORD_BYTES * u16_at(entry, 4));
        self.entries = entries;
        self.bodies = bodies;
        Some(SheetBytes { entry, body })
    }
}
