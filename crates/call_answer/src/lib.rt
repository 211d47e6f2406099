// The program's own answer to a call, and the one number that C receives for it. A call answers a
// count (words written, 1 for a block, the records of a book, the bytes of a note, the lines of a
// page), or the first of its checks that failed.

#![tactic(auto)]

ghost use Rattle.std.specs.Prelude.{◌≡◌};
ghost use Rattle.call_answer.specs.Answer.{check_number, numbered, number_of};

// The checks of all calls, in the order of their numbers, which begin at 1. The names are those of
// the C header.
#[derive(Clone, Copy, PartialEq, Eq)]
pub enum Check {
    KeyLength = 1,
    Way,
    BlockLength,
    OutputLength,
    BookLength,
    BookKind,
    Sheets,
    ContentsCut,
    Entry,
    BodyLength,
    Record,
    NoteLength,
    SheetIndex,
    WordsLength,
}

impl From<Check> for u32 {
    ghost from_gives = { λ check n. n ≡ check_number check };

    fn from(check: Check) -> u32 {
        check as u32
    }
}

// A refusal is its check's number times 2^32, with a count of 0.
pub fn number(answer: Result<u64, u32>) -> u64
    ensures { result ≡ number_of answer }
{
    match answer {
        Ok(count) => count,
        Err(check) => u64::from(check) * 4294967296,
    }
}

// The number of a call's answer: what the border to C returns.
pub fn answer_number(answer: Result<u64, Check>) -> u64
    ensures { result ≡ number_of (numbered answer) }
{
    number(answer.map_err(u32::from))
}
