// Check 11 of one encrypted sheet: its records decrypted, four at a time by word tables, and only
// looked at. Each is decrypted by itself and added to the encrypted one before it, which is read
// from the body again.

#![tactic(auto)]

ghost use Rattle.std.specs.Prelude.{◌≡◌, List, ℕ, ◌+◌, ◌-◌, ◌*◌, ◌≤◌, length, drop};
ghost use Rattle.clefia_spec.specs.Words.{bytes_of, words_of, xors};
ghost use Rattle.clefia_spec.specs.Block.{decrypt_under};
ghost use Rattle.planbook_spec.specs.Book.{count, record_holds, sheet_holds, decrypt_body};
ghost use Rattle.book_entries.specs.Entry.{sheet_of};
ghost use Rattle.book_chain.specs.ChainLaws.{Decrypted};

use book_chain::Chain;
use book_entries::entry::Sheet;
use book_entries::{entry, record};
use book_sheets::SheetBytes;
use cipher_block::Cipher;
use cipher_block_four_way::decrypt_four;
use cipher_ffunction::FFunctions;

// Whether a decrypted block t, added to the encrypted one before it, is a record that holds.
fn clear_holds(sheet: Sheet, previous: [u32; 4], t: [u32; 4]) -> bool
    ensures { (e : List ℕ) → sheet ≡ sheet_of e → result ≡ record_holds e (bytes_of (xors previous t)) }
{
    record::record_holds(sheet, cipher_bytes::xors4(previous, t))
}

// How often four of n records go at once: by word tables as long as there are four; other tables
// leave nothing to wait for, and there never.
fn fours<F: FFunctions>(n: usize) -> usize
    ensures { 4 * result ≤ n }
{
    if F::waits() { n / 4 } else { 0 }
}

// Whether the records so far hold and the four at `at` too; `previous` went before them.
fn four_hold<F: FFunctions>(
    held: bool,
    cipher: Cipher<'_, F>,
    sheet: Sheet,
    body: &[u8],
    at: usize,
    previous: [u32; 4],
) -> bool
    requires { at + 64 ≤ length body.now }
    ensures { (e : List ℕ) (left : ℕ) → sheet ≡ sheet_of e → length body.now ≡ 16 * count e
        → Decrypted held cipher.entry.expanded.now e body.now at left previous → 4 ≤ left
        → Decrypted result cipher.entry.expanded.now e body.now (at + 64) (left - 4)
        (words_of 4 (drop (at + 48) body.now)) }
{
    let t = decrypt_four(cipher, body, at);
    let a = t.a;
    let b = t.b;
    let c = t.c;
    let d = t.d;
    let second = at + 16;
    let third = second + 16;
    let p = clear_holds(sheet, previous, a);
    let q = clear_holds(sheet, cipher_bytes::load(body, at), b);
    let r = clear_holds(sheet, cipher_bytes::load(body, second), c);
    let s = clear_holds(sheet, cipher_bytes::load(body, third), d);
    held & p & q & r & s
}

// Whether the records so far hold and the others too, from record `from` on, one by one; `before`
// went before them.
fn rest_holds<F: FFunctions>(
    held: bool,
    cipher: Cipher<'_, F>,
    sheet: SheetBytes<'_>,
    from: usize,
    before: [u32; 4],
) -> bool
    requires { Decrypted held cipher.expanded.now sheet.entry.now sheet.body.now (16 * from)
        (count sheet.entry.now - from) before }
    ensures { result ≡ sheet_holds sheet.entry.entry.now
        (decrypt_body (decrypt_under cipher.entry.expanded.now) sheet.entry.entry.now sheet.entry.body.now) }
{
    let read = entry::read_sheet(sheet.entry);
    let mut chain = Chain { previous: before };
    for i in from..read.count {
        let clear = chain.decrypt(cipher, cipher_bytes::load(sheet.body, 16 * i));
        if !record::record_holds(read, clear) {
            return false;
        }
    }
    held
}

// Every record of an encrypted body, decrypted and dropped again: nothing is written. By word
// tables they go four at a time as long as there are four, and no four ends the loop: with one way
// out more the compiler would take the rest for seldom, and keep its rounds out of line (DECISIONS,
// "By other tables records go").
pub fn decrypted_sheet_holds<F: FFunctions>(cipher: Cipher<'_, F>, sheet: SheetBytes<'_>) -> bool
    ensures { result ≡ sheet_holds sheet.entry.entry.now
        (decrypt_body (decrypt_under cipher.entry.expanded.now) sheet.entry.entry.now sheet.entry.body.now) }
{
    let read = entry::read_sheet(sheet.entry);
    let fours = fours::<F>(read.count);
    let chain = Chain::new(sheet.entry);
    let mut previous = chain.previous;
    let mut holds = true;
    for i in 0..fours {
        let at = 64 * i;
        holds = four_hold(holds, cipher, read, sheet.body, at, previous);
        previous = cipher_bytes::load(sheet.body, at + 48);
    }
    rest_holds(holds, cipher, sheet, 4 * fours, previous)
}
