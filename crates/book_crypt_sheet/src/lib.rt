// The body of one sheet, encrypted or decrypted: in decrypting by word tables four records at a
// time, the rest and all encrypting block by block. Of four, each is decrypted by itself and added
// to the encrypted one before it, which is read from the body again.

#![tactic(auto)]

ghost use Rattle.std.specs.Prelude.{◌≡◌, true, List, ℕ, ◌+◌, ◌-◌, ◌*◌, ◌≤◌, ◌<◌, length};
ghost use Rattle.planbook_spec.specs.Book.{count};
ghost use Rattle.book_sheets.specs.Left.{whole_sheet};
ghost use Rattle.book_chain.specs.ChainLaws.{Chained};
ghost use Rattle.book_chain.specs.Crypt.{crypted_body};
ghost use Rattle.book_crypt_sheet.specs.ClearWritten.{ClearWritten};
ghost use Rattle.book_crypt_sheet.specs.Continued.{Continued};

use book_chain::Chain;
use book_format::u16_at;
use book_sheets::SheetBytes;
use cipher_block::Cipher;
use cipher_block_four_way::decrypt_four;
use cipher_ffunction::FFunctions;

// A decrypted block t added to the encrypted one before it, and written at `at`; the encrypted one
// there is read.
fn write_clear(body: &[u8], out: &mut [u8], at: usize, previous: [u32; 4], t: [u32; 4]) -> [u32; 4]
    requires { (at + 16 ≤ length body.now) × (at + 16 ≤ length out.old) }
    ensures { ClearWritten body.now out.old at previous t result out.new }
{
    let end = at + 16;
    cipher_bytes::exchange(
        &mut out[at..end],
        cipher_bytes::xors4(previous, t),
        body,
        at,
    )
}

// The four records at `at`, written; `previous` went before them, and what goes before the next is
// returned.
fn write_four<F: FFunctions>(
    cipher: Cipher<'_, F>,
    body: &[u8],
    out: &mut [u8],
    at: usize,
    previous: [u32; 4],
) -> [u32; 4]
    requires { (at + 64 ≤ length body.now) × (at + 64 ≤ length out.old) }
    ensures { (e : List ℕ) (left : ℕ) → length body.now ≡ 16 * count e
        → Chained true cipher.entry.expanded.now e body.now out.old at left previous → 4 ≤ left
        → Chained true cipher.entry.expanded.now e body.now out.new (at + 64) (left - 4) result }
{
    let t = decrypt_four(cipher, body, at);
    let a = t.a;
    let b = t.b;
    let c = t.c;
    let d = t.d;
    let second = at + 16;
    let third = second + 16;
    let fourth = third + 16;
    let p = write_clear(body, out, at, previous, a);
    let q = write_clear(body, out, second, p, b);
    let r = write_clear(body, out, third, q, c);
    write_clear(body, out, fourth, r, d)
}

// How many records of a body are written, and the chain for the next one.
#[derive(Drop)]
pub struct Place {
    pub written: usize,
    pub chain: Chain,
}

// The records of an encrypted body, four at a time as long as there are four.
fn write_fours<F: FFunctions>(cipher: Cipher<'_, F>, sheet: SheetBytes<'_>, out: &mut [u8]) -> Place
    requires { length out.old ≡ 16 * count sheet.entry.now }
    ensures { Continued true cipher.entry.expanded.now (whole_sheet sheet.entry) out.new result }
{
    let fours = u16_at(sheet.entry, 4) / 4;
    let chain = Chain::new(sheet.entry);
    let mut previous = chain.previous;
    for i in 0..fours {
        let next = write_four(cipher, sheet.body, out, 64 * i, previous);
        previous = next;
    }
    Place {
        written: 4 * fours,
        chain: Chain { previous },
    }
}

// What of a body is written before the rest goes record by record: in decrypting by word tables,
// all fours; in encrypting, where each record waits for the one before it, and by other tables,
// which leave nothing to wait for, nothing.
fn begin<F: FFunctions>(
    decrypting: bool,
    cipher: Cipher<'_, F>,
    sheet: SheetBytes<'_>,
    out: &mut [u8],
) -> Place
    requires { length out.old ≡ 16 * count sheet.entry.now }
    ensures { Continued decrypting cipher.entry.expanded.now (whole_sheet sheet.entry) out.new result }
{
    if decrypting {
        if F::waits() {
            return write_fours(cipher, sheet, out);
        }
    }
    Place {
        written: 0,
        chain: Chain::new(sheet.entry),
    }
}

// Where the block after the one that ends at `end` begins, among `size` bytes of whole blocks;
// after the last one, the first again.
fn following(end: usize, size: usize) -> usize
    ensures { (end < size → result ≡ end) × (size ≤ end → result ≡ 0) }
{
    if end < size { end } else { 0 }
}

pub fn crypt_sheet<F: FFunctions>(
    decrypting: bool,
    cipher: Cipher<'_, F>,
    sheet: SheetBytes<'_>,
    out: &mut [u8],
)
    requires { length out.old ≡ 16 * count sheet.entry.now }
    ensures { out.new ≡ crypted_body decrypting cipher.entry.expanded.now sheet.entry.entry.now
        sheet.entry.body.now }
{
    let count = u16_at(sheet.entry, 4);
    let start = begin(decrypting, cipher, sheet, out);
    if start.written == count {
        return;
    }
    let mut chain = start.chain;
    let mut block = cipher_bytes::load(sheet.body, 16 * start.written);
    for i in start.written..count {
        let at = 16 * i;
        let end = at + 16;
        let written = chain.crypt(decrypting, cipher, block);
        let from = following(end, sheet.body.len());
        let read = cipher_bytes::exchange(&mut out[at..end], written, sheet.body, from);
        block = read;
    }
}
