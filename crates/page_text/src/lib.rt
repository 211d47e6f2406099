// The text of a planting page: a number in its field, a line, the heading, the lines of a sheet.
// Characters are bytes.

#![tactic(auto)]

ghost use Rattle.std.specs.Prelude.{◌≡◌, [], ◌∷◌, ◌++◌, ◌+◌, ◌*◌, ◌≤◌, ◌<◌, length, take};
ghost use Rattle.planbook_spec.specs.Book.{pieces};
ghost use Rattle.planbook_spec.specs.Page.{number_field, heading, line, lines};
ghost use Rattle.page_text.specs.Digits.{shown_digit};

use book_format::{RECORD_BYTES, u16_at};

const LINE_BYTES: usize = 32;

// The last digit of a number, or a space where no digit is left.
fn digit(rest: usize) -> u8
    ensures { result ≡ shown_digit rest }
{
    if rest == 0 {
        b' '
    } else {
        b'0' + (rest % 10) as u8
    }
}

// A number that fills all of its field, from the last digit on.
fn write_number(out: &mut [u8], n: usize)
    requires { 0 < length out.old }
    ensures { out.new ≡ number_field (length out.old) n }
{
    let last = out.len() - 1;
    out[last] = b'0' + (n % 10) as u8;
    let mut rest = n / 10;
    for i in (0..last).rev() {
        out[i] = digit(rest);
        rest /= 10;
    }
}

// A field of some width at a place of a line, and the character after it.
fn put_field(out: &mut [u8], at: usize, width: usize, n: usize, after: u8)
    requires { (0 < width) × (at + width < length out.old) }
    ensures { take (at + width + 1) out.new ≡ take at out.old
        ++ (number_field width n ++ (after ∷ [])) }
{
    let end = at + width;
    write_number(&mut out[at..end], n);
    out[end] = after;
}

// The line of a record.
fn write_line(record: &[u8], out: &mut [u8])
    requires { (length «record».now ≡ 16) × (length out.old ≡ 32) }
    ensures { out.new ≡ line «record».now }
{
    put_field(out, 0, 10, cipher_bytes::word(record, 0) as usize, b' ');
    put_field(out, 11, 10, cipher_bytes::word(record, 4) as usize, b' ');
    put_field(out, 22, 1, usize::from(record[8]), b' ');
    put_field(out, 24, 3, u16_at(record, 9), b' ');
    put_field(out, 28, 3, u16_at(record, 11), b'\n');
}

fn write_heading(out: &mut [u8])
    requires { 32 ≤ length out.old }
    ensures { take 32 out.new ≡ heading }
{
    out[..LINE_BYTES].copy_from_slice(b"     TRIAL      ENTRY R ROW COL\n");
}

// The heading, and the lines of the records that a body has.
pub fn write_page(body: &[u8], count: usize, out: &mut [u8])
    requires { (length body.now ≡ 16 * count) × (length out.old ≡ 32 * (count + 1)) }
    ensures { out.new ≡ heading ++ lines (pieces 16 count body.now) }
{
    write_heading(out);
    for i in 0..count {
        let at = RECORD_BYTES * i;
        let to = LINE_BYTES * (i + 1);
        write_line(&body[at..at + RECORD_BYTES], &mut out[to..to + LINE_BYTES]);
    }
}
