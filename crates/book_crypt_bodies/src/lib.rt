// What is written of a book: the front, and the bodies of all sheets encrypted or decrypted, one
// after the other.

#![tactic(auto)]

pub mod front;

ghost use Rattle.std.specs.Prelude.{◌≡◌, ◌++◌, ◌+◌, ◌*◌, length, take};
ghost use Rattle.planbook_spec.specs.Book.{sheet_count, contents, bodies, each_body};
ghost use Rattle.planbook_laws.specs.BookLaws.{Formed};
ghost use Rattle.book_chain.specs.Crypt.{crypted_body};

use book_format::{ENTRY_BYTES, HEAD_BYTES, u16_at};
use book_sheets::Sheets;
use cipher_block::Cipher;
use cipher_ffunction::FFunctions;

// Each body encrypted or decrypted where it was, and the front of the output left as it was.
pub fn crypt_bodies<F: FFunctions>(
    decrypting: bool,
    cipher: Cipher<'_, F>,
    book: &[u8],
    out: &mut [u8],
)
    requires { Formed book.now × (length out.old ≡ length book.now) }
    ensures { out.new ≡ take (4 + 24 * sheet_count book.now) out.old
        ++ each_body (crypted_body decrypting cipher.entry.expanded.now) (contents book.now)
        (bodies book.now) }
{
    let mut at = HEAD_BYTES + ENTRY_BYTES * u16_at(book, 2);
    for sheet in Sheets::new(book) {
        let end = at + sheet.body.len();
        book_crypt_sheet::crypt_sheet(decrypting, cipher, sheet, &mut out[at..end]);
        at = end;
    }
}
