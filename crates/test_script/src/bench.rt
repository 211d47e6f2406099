// What calls are given, as commands set it, and the lines that are written of it.
ghost use Rattle.std.specs.Prelude.{◌≡◌, ◌↔◌, ◌+◌, ◌<◌, cond, length, min, take, IsTrue};

use crate::commands::{Call, Line, Setting};
use crate::cut::{first, first_mut};
use std::io;
use test_books::{flip, put, write_counter};
use test_console::{Answer, Words};

// What each byte of an output is before a call, so that a refused call that wrote would show.
const PATTERN: u8 = 165;

// More than the longest book has.
const SPACE: usize = 65540;

// The 32-byte key of the cipher's test vectors, whose shorter keys are its first bytes, and one
// byte more.
static KEY: [u8; 33] = [
    0xff, 0xee, 0xdd, 0xcc, 0xbb, 0xaa, 0x99, 0x88, 0x77, 0x66, 0x55, 0x44, 0x33, 0x22, 0x11, 0x00,
    0xf0, 0xe0, 0xd0, 0xc0, 0xb0, 0xa0, 0x90, 0x80, 0x70, 0x60, 0x50, 0x40, 0x30, 0x20, 0x10, 0x00,
    0x00,
];

// Bytes of which calls are given the first so many, or all where that is more than there are.
#[derive(Drop)]
pub struct Part<const N: usize> {
    pub bytes: [u8; N],
    pub length: usize,
}

impl<const N: usize> Part<N> {
    fn new() -> Self {
        Part {
            bytes: [0; N],
            length: 0,
        }
    }

    pub fn given(&self) -> &[u8]
        ensures { result.now ≡ take self.now.length self.now.bytes }
    {
        first(&self.bytes, self.length)
    }

    pub fn given_mut(&mut self) -> &mut [u8]
        ensures { result.now ≡ take self.old.length self.old.bytes }
    {
        let bytes = &mut self.bytes;
        first_mut(&mut bytes[..], self.length)
    }
}

#[derive(Drop)]
pub struct Bench<'a> {
    // The name that lines give.
    case: &'a [u8],
    pub way: usize,
    pub sheet: usize,
    pub key_length: usize,
    pub words: Part<256>,
    pub counter: Part<32>,
    pub input: Part<SPACE>,
    pub output: Part<SPACE>,
    // What an earlier output was.
    kept: [u8; SPACE],
}

impl<'a> Bench<'a> {
    pub fn new() -> Self {
        Bench {
            case: &[],
            way: 0,
            sheet: 0,
            key_length: 0,
            words: Part::new(),
            counter: Part::new(),
            input: Part::new(),
            output: Part::new(),
            kept: [0; SPACE],
        }
    }

    pub fn key(&self) -> &'static [u8]
        ensures { length result.now ≡ min self.now.key_length 33 }
    {
        first(&KEY, self.key_length)
    }

    // Goes to the next way, up to way 3, and says whether there is one.
    pub fn next_way(&mut self) -> bool
        ensures is_next { IsTrue result ↔ (self.old.way < 3) }
        ensures way { self.new.way ≡ cond result (self.old.way + 1) self.old.way }
    {
        let is_next = self.way < 3;
        if is_next {
            self.way += 1;
        }
        is_next
    }

    pub fn set(&mut self, setting: Setting<'a>) {
        match setting {
            Setting::Key(length) => self.key_length = length,
            Setting::Way(way) => self.way = way,
            Setting::Words(length) => self.words.length = length,
            Setting::Damage { at, bits } => flip(&mut self.words.bytes, at, bits),
            Setting::Size(length) => self.output.length = length,
            Setting::Block(length) => self.input.length = length,
            Setting::Book { book, length } => {
                book.write(&mut self.input.bytes);
                self.input.length = length;
                self.output.length = length;
            }
            Setting::Counter {
                length,
                first,
                number,
            } => {
                write_counter(&mut self.counter.bytes, first, number);
                self.counter.length = length;
            }
            Setting::Sheet(sheet) => self.sheet = sheet,
            Setting::Put { at, byte } => put(&mut self.input.bytes, at, byte),
            Setting::Flip { at, bits } => flip(&mut self.input.bytes, at, bits),
            Setting::Keep => self.kept.swap_with_slice(&mut self.output.bytes),
            Setting::Exchange => self.input.bytes.swap_with_slice(&mut self.kept),
            Setting::Case(name) => self.case = name,
        }
    }

    pub fn write(&self, rt: &impl Print, line: Line) -> io::Result<()> {
        match line {
            Line::Say(text) => {
                rt.write_all(text)?;
                rt.write_all(b"\n")
            }
            Line::Compare(text) => {
                rt.write_all(text)?;
                if first(&self.kept, self.output.length) == self.output.given() {
                    rt.write_all(b": the same\n")
                } else {
                    rt.write_all(b": another\n")
                }
            }
            Line::Hex => print!(rt; "{}", Words(self.input.given())),
        }
    }

    // The start of a line of a call: the call, the case and the way.
    pub fn write_start(&self, rt: &impl Print, call: Call) -> io::Result<()> {
        print!(rt; "{call}, ")?;
        rt.write_all(self.case)?;
        if call.takes_way() {
            print!(rt; ", way {}", self.way)?;
        }
        rt.write_all(b": ")
    }

    pub fn clear_output(&mut self) {
        self.output.given_mut().fill(PATTERN);
    }

    fn output_is_clear(&self) -> bool {
        self.output.given().iter().all(|byte| *byte == PATTERN)
    }

    // The rest of the line: the check, the count, and whether the output was written.
    pub fn write_end(&self, rt: &impl Print, answer: u64) -> io::Result<()> {
        let answer = Answer::from(answer);
        if self.output_is_clear() {
            println!(rt; "{answer}, output untouched")
        } else {
            println!(rt; "{answer}, output written")
        }
    }
}
