// The planting page of the first sheet of a clear book. The book comes from standard input, which
// is read to its end or to the first byte that no book has room for, and the page goes to standard
// output. Of a book that is refused, or that has no sheets, nothing is written, to neither stream;
// a page that could not be written whole is reported on standard error.
#![tactic(auto)]

use planbook::planbook_page;
use test_script::cut::first_mut;
use test_script::input::read_full;

// How long the page is: a heading, and a line for each record that the first entry of the contents
// counts. Where that entry is not there, the book is refused, whatever is passed.
fn page_length(book: &[u8]) -> usize {
    if book.len() < 28 {
        return 0;
    }
    let records = u16::from_be_bytes([book[8], book[9]]);
    32 * (usize::from(records) + 1)
}

fn print_page(rt: &(impl Print + Eprint), book: &[u8], page: &mut [u8]) {
    let answer = planbook_page(book, 0, page);
    // From 2 ^ 32 on it is the number of a check.
    if answer < 0x1_0000_0000 && rt.write_all(page).is_err() {
        // Where standard error cannot be written either, there is nowhere left to say so.
        let _ = eprintln!(rt; "page: not all of the page could be written");
    }
}

fn main(rt: HostRuntime) {
    // One byte more than the longest book has, so that a longer input is seen, and refused for its
    // length.
    let mut space = [0u8; 65533];
    let n = read_full(&mut rt.reader(), &mut space);
    let book = &space[..n];
    // The longest page has a heading and 1,024 records.
    let mut page = [0u8; 32800];
    print_page(&rt, book, first_mut(&mut page, page_length(book)));
}
