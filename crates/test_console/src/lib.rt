// What the test programs write of calls: the answer of one, and bytes as words. All of it goes to
// standard output.
#![tactic(auto)]

ghost use Rattle.std.specs.Prelude.{◌≡◌, ◌+◌, ◌*◌, ◌<◌, ◌^◌};

use std::fmt;

// The two parts of an exported call's answer.
#[derive(Clone, Copy, Debug, PartialEq, Eq)]
pub struct Answer {
    pub check: u64,
    pub count: u64,
}

impl From<u64> for Answer {
    ghost from_gives = { λ answer parts. (parts.check * 2 ^ 32 + parts.count ≡ answer) × (parts.count < 2 ^ 32) };

    fn from(answer: u64) -> Self {
        Answer {
            check: answer / 0x1_0000_0000,
            count: answer % 0x1_0000_0000,
        }
    }
}

impl fmt::Display for Answer {
    fn fmt<W: fmt::Write>(&self, f: &mut fmt::Formatter<W>) -> fmt::Result {
        write!(f, "check {}, count {}", self.check, self.count)
    }
}

// Bytes as words of four in hexadecimal digits, four words to a line. Bytes after the last word are
// left out.
#[derive(Clone, Copy, Debug)]
pub struct Words<'a>(pub &'a [u8]);

// The words of a line, with a space between them.
#[derive(Clone, Copy)]
struct Line<'a>(&'a [[u8; 4]]);

impl fmt::Display for Line<'_> {
    fn fmt<W: fmt::Write>(&self, f: &mut fmt::Formatter<W>) -> fmt::Result {
        for (i, word) in self.0.iter().enumerate() {
            if i > 0 {
                f.write_str(" ")?;
            }
            write!(f, "{:08x}", u32::from_be_bytes(*word))?;
        }
        Ok(())
    }
}

impl fmt::Display for Words<'_> {
    fn fmt<W: fmt::Write>(&self, f: &mut fmt::Formatter<W>) -> fmt::Result {
        let (words, _) = self.0.as_chunks::<4>();
        for line in words.chunks(4) {
            writeln!(f, "{}", Line(line))?;
        }
        Ok(())
    }
}
