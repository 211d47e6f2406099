// The head and the contents, copied with another first byte.
ghost use Rattle.std.specs.Prelude.{◌≡◌, ◌+◌, ◌*◌, ◌≤◌, length, take, set};
ghost use Rattle.planbook_spec.specs.Book.{sheet_count};

use book_format::{ENTRY_BYTES, HEAD_BYTES, u16_at};

pub fn copy_front(kind: u8, book: &[u8], out: &mut [u8])
    requires { (4 + 24 * sheet_count book.now ≤ length book.now) × (length out.old ≡ length book.now) }
    ensures { take (4 + 24 * sheet_count book.now) out.new
        ≡ set (take (4 + 24 * sheet_count book.now) book.now) 0 kind }
{
    let end = HEAD_BYTES + ENTRY_BYTES * u16_at(book, 2);
    // (A loop: the slice's method would be the one call of memmove in the library.)
    for i in 0..end {
        out[i] = book[i];
    }
    out[0] = kind;
}
