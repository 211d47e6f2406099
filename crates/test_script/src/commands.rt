// The commands of a script, by their names. A name that a number follows ends with a space.
ghost use Rattle.std.specs.Prelude.{◌≡◌, ◌≢◌, ◌↔◌, IfSome, IsTrue};
ghost use Rattle.test_script.specs.Calls.{call_name};

use crate::script::{Piece, numbers, text};
use std::fmt;
use test_books::Book;

// An exported call that is reported in a line.
#[derive(Clone, Copy, Debug, PartialEq, Eq)]
pub enum Call {
    Constants,
    ExpandKey,
    EncryptBlock,
    DecryptBlock,
    EncryptBook,
    DecryptBook,
    CryptNote,
    Page,
}

impl Call {
    fn named(name: &[u8]) -> Option<Call>
        ensures { IfSome result (λ call. call_name call ≡ name.now) }
    {
        match name {
            b"constants" => Some(Call::Constants),
            b"expand key" => Some(Call::ExpandKey),
            b"encrypt block" => Some(Call::EncryptBlock),
            b"decrypt block" => Some(Call::DecryptBlock),
            b"encrypt book" => Some(Call::EncryptBook),
            b"decrypt book" => Some(Call::DecryptBook),
            b"crypt note" => Some(Call::CryptNote),
            b"page" => Some(Call::Page),
            _ => None,
        }
    }

    pub fn takes_way(self) -> bool
        ensures { IsTrue result ↔ ((self ≢ Call.Constants) × (self ≢ Call.Page)) }
    {
        !matches!(self, Call::Constants | Call::Page)
    }
}

impl fmt::Display for Call {
    ghost use Rattle.std.specs.Prelude.{Some};

    ghost output = { λ call. Some (call_name call) };

    fn fmt<W: fmt::Write>(&self, f: &mut fmt::Formatter<W>) -> fmt::Result {
        match self {
            Call::Constants => f.write_str("constants"),
            Call::ExpandKey => f.write_str("expand key"),
            Call::EncryptBlock => f.write_str("encrypt block"),
            Call::DecryptBlock => f.write_str("decrypt block"),
            Call::EncryptBook => f.write_str("encrypt book"),
            Call::DecryptBook => f.write_str("decrypt book"),
            Call::CryptNote => f.write_str("crypt note"),
            Call::Page => f.write_str("page"),
        }
    }
}

// A command that changes what calls are given.
#[derive(Clone, Copy, Debug)]
pub enum Setting<'a> {
    Key(usize),
    Way(usize),
    Words(usize),
    Damage {
        at: usize,
        bits: u8,
    },
    Size(usize),
    Block(usize),
    Book {
        book: Book,
        length: usize,
    },
    Counter {
        length: usize,
        first: usize,
        number: usize,
    },
    Sheet(usize),
    Put {
        at: usize,
        byte: u8,
    },
    Flip {
        at: usize,
        bits: u8,
    },
    Keep,
    Exchange,
    Case(&'a [u8]),
}

fn low_byte(number: usize) -> u8 {
    (number % 0x100) as u8
}

impl<'a> Setting<'a> {
    fn parse(name: &[u8], rest: &'a [u8]) -> Option<Self> {
        let [first, second, third, fourth, fifth] = numbers(rest);
        match name {
            b"key " => Some(Setting::Key(first)),
            b"way " => Some(Setting::Way(first)),
            b"words " => Some(Setting::Words(first)),
            b"damage " => Some(Setting::Damage {
                at: first,
                bits: low_byte(second),
            }),
            b"size " => Some(Setting::Size(first)),
            b"block " => Some(Setting::Block(first)),
            b"book " => Some(Setting::Book {
                book: Book::new(first, second, third, fourth),
                length: fifth,
            }),
            b"counter " => Some(Setting::Counter {
                length: first,
                first: second,
                number: third,
            }),
            b"sheet " => Some(Setting::Sheet(first)),
            b"put " => Some(Setting::Put {
                at: first,
                byte: low_byte(second),
            }),
            b"flip " => Some(Setting::Flip {
                at: first,
                bits: low_byte(second),
            }),
            b"keep" => Some(Setting::Keep),
            b"exchange" => Some(Setting::Exchange),
            b"case" => Some(Setting::Case(text(rest))),
            _ => None,
        }
    }
}

// A command that writes a line, or the lines of 'hex'.
#[derive(Clone, Copy, Debug)]
pub enum Line<'a> {
    Say(&'a [u8]),
    Compare(&'a [u8]),
    Hex,
}

#[derive(Clone, Copy, Debug)]
pub enum Command<'a> {
    Remark,
    Call(Call),
    // The call 'encrypt book' with no line.
    Seal,
    // The key is expanded into so many bytes of words.
    Prepare(usize),
    Mark,
    Again,
    Set(Setting<'a>),
    Write(Line<'a>),
}

// What is no command.
#[derive(Clone, Copy, Debug)]
pub struct UnknownCommand<'a>(pub &'a [u8]);

impl<'a> Command<'a> {
    fn parse(name: &[u8], rest: &'a [u8]) -> Option<Self> {
        match name {
            b"seal" => Some(Command::Seal),
            b"prepare " => Some(Command::Prepare(numbers(rest)[0])),
            b"mark" => Some(Command::Mark),
            b"again" => Some(Command::Again),
            b"say" => Some(Command::Write(Line::Say(text(rest)))),
            b"compare" => Some(Command::Write(Line::Compare(text(rest)))),
            b"hex" => Some(Command::Write(Line::Hex)),
            _ => match Call::named(name) {
                Some(call) => Some(Command::Call(call)),
                None => Setting::parse(name, rest).map(Command::Set),
            },
        }
    }
}

impl<'a> TryFrom<Piece<'a>> for Command<'a> {
    type Error = UnknownCommand<'a>;

    fn try_from(piece: Piece<'a>) -> Result<Self, UnknownCommand<'a>> {
        if piece.is_remark() {
            return Ok(Command::Remark);
        }
        let (name, rest) = piece.name_and_rest();
        Command::parse(name, rest).ok_or(UnknownCommand(piece.bytes))
    }
}
