// Clear books and counter blocks for the cases to start from. Places past a book's end are left
// out, so that a book can be made too short.
#![tactic(auto)]

ghost use Rattle.std.specs.Prelude.{◌≡◌, ◌%◌, ◌^◌};

pub fn put(book: &mut [u8], at: usize, value: u8) {
    if let Some(byte) = book.get_mut(at) {
        *byte = value;
    }
}

// Inverts the bits of a byte that are set in `change`.
pub fn flip(book: &mut [u8], at: usize, change: u8) {
    if let Some(byte) = book.get_mut(at) {
        *byte ^= change;
    }
}

// A record's words: replicates 1 to 4 in turn, row and column the number modulo 1,000, so that
// every record keeps the rule of plots. The record of number 0 is in reserve.
fn record(trial: u32, number: u16) -> [u32; 4] {
    let n = u32::from(number);
    let place = n % 1000;
    [
        trial,
        n + 1,
        (n % 4 + 1) * 0x100_0000 + place * 0x100 + place / 0x100,
        place % 0x100 * 0x100_0000,
    ]
}

// A clear book whose trials count up. Each sheet has as many records as `each` says, and the last
// one as many as `last` says, which is no more.
#[derive(Clone, Copy, Debug, PartialEq, Eq)]
pub struct Book {
    pub first_trial: u32,
    pub sheets: usize,
    pub each: u16,
    pub last: u16,
}

impl Book {
    // The trial counts modulo 2 ^ 32, and so do the numbers of records modulo 65,536.
    pub fn new(first_trial: usize, sheets: usize, each: usize, last: usize) -> Book
        ensures first { result.first_trial ≡ first_trial % 2 ^ 32 }
        ensures counts { (result.each ≡ each % 2 ^ 16) × (result.last ≡ last % 2 ^ 16) }
    {
        Book {
            first_trial: (first_trial % 0x1_0000_0000) as u32,
            sheets,
            each: (each % 0x1_0000) as u16,
            last: (last % 0x1_0000) as u16,
        }
    }

    // The number of sheets as a book's head has it.
    fn head_count(&self) -> u16 {
        (self.sheets % 0x1_0000) as u16
    }

    fn head(&self) -> u32 {
        0x100_0000 + u32::from(self.head_count())
    }

    // The trial of a sheet, counted from 0.
    fn trial(&self, sheet: usize) -> u32 {
        self.first_trial.wrapping_add((sheet % 0x1_0000) as u32)
    }

    fn count(&self, sheet: usize) -> u16 {
        if self.sheets.checked_sub(1) == Some(sheet) {
            self.last
        } else {
            self.each
        }
    }

    // The words of a sheet's entry. The iv is such that the sheet's first record, added to it, is
    // the plaintext of the cipher's test vectors.
    fn entry(&self, sheet: usize) -> [u32; 6] {
        let trial = self.trial(sheet);
        [
            trial,
            u32::from(self.count(sheet)) * 0x1_0000,
            trial ^ 0x00010203,
            0x04050606,
            0x09090a0b,
            0x0c0d0e0f,
        ]
    }

    // A word of the bodies. Past the last sheet it is 0.
    fn body_word(&self, at: usize) -> u32 {
        let words = usize::from(self.each) * 4;
        if words == 0 || at / words >= self.sheets {
            return 0;
        }
        let number = (at % words / 4) as u16;
        record(self.trial(at / words), number)[at % 4]
    }

    // A word of the book: one of its head, six of each entry, four of each record.
    fn word(&self, at: usize) -> u32 {
        let contents = usize::from(self.head_count()) * 6;
        match at.checked_sub(1) {
            None => self.head(),
            Some(place) if place < contents => self.entry(place / 6)[place % 6],
            Some(place) => self.body_word(place - contents),
        }
    }

    // Writes as much of the book as there is space for.
    pub fn write(&self, space: &mut [u8]) {
        let (words, rest) = space.as_chunks_mut::<4>();
        let last = self.word(words.len()).to_be_bytes();
        rest.copy_from_slice(&last[..rest.len()]);
        for (at, bytes) in words.iter_mut().enumerate() {
            *bytes = self.word(at).to_be_bytes();
        }
    }
}

// Writes a counter block: twelve bytes that count up from `first`, modulo 256, and the number in
// four, modulo 2 ^ 32. Past them it is 0.
pub fn write_counter(block: &mut [u8], first: usize, number: usize) {
    let first = (first % 0x100) as u8;
    let number = ((number % 0x1_0000_0000) as u32).to_be_bytes();
    for (i, byte) in block.iter_mut().enumerate() {
        *byte = match i {
            0..12 => first.wrapping_add(i as u8),
            12..16 => number[i - 12],
            _ => 0,
        };
    }
}
