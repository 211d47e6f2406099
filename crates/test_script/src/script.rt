// A script of commands. A command ends at a semicolon or at its line's end. It is a name of letters
// and spaces, and then numbers or, after a colon, text. A line that begins with # means nothing to
// the program.
ghost use Rattle.std.specs.Prelude.{◌≡◌, ◌≢◌, ◌↔◌, ◌⊎◌, ◌+◌, ◌<◌, ◌≤◌, ◌==◌, ◌++◌, length, take, drop, slice_get, Some, All, IsTrue};

// What is left of a script, and what followed the last 'mark'.
#[derive(Clone, Copy, Debug)]
pub struct Script<'a> {
    rest: &'a [u8],
    mark: &'a [u8],
}

// A command as a script has it, without what it ends at.
#[derive(Clone, Copy, Debug, PartialEq, Eq)]
pub struct Piece<'a> {
    pub bytes: &'a [u8],
    pub ends_line: bool,
}

fn is_command_end(byte: u8) -> bool
    ensures { IsTrue result ↔ ((byte ≡ 10) ⊎ (byte ≡ 59)) }
{
    matches!(byte, b'\n' | b';')
}

fn is_name_end(byte: u8) -> bool
    ensures { IsTrue result ↔ ((byte < 65) × (byte ≢ 32)) }
{
    byte < b'A' && byte != b' '
}

impl<'a> Script<'a> {
    pub fn new(script: &'a [u8]) -> Self
        ensures { (result.rest ≡ script.entry) × (result.mark ≡ script.entry) }
    {
        Script {
            rest: script,
            mark: script,
        }
    }

    pub fn is_at_end(&self) -> bool
        ensures { result ≡ (length self.now.rest.now == 0) }
    {
        self.rest.is_empty()
    }

    pub fn set_mark(&mut self)
        ensures mark { self.new.mark ≡ self.old.rest }
        ensures rest { self.new.rest ≡ self.old.rest }
    {
        self.mark = self.rest;
    }

    pub fn go_back(&mut self)
        ensures mark { self.new.mark ≡ self.old.mark }
        ensures rest { self.new.rest ≡ self.old.mark }
    {
        self.rest = self.mark;
    }

    // Takes the next command. The one after it begins past its end, and past a space there.
    pub fn next_command(&mut self) -> Piece<'a>
        ensures front { result.bytes.now ≡ take (length result.bytes.now) self.old.rest.now }
        ensures rest { length result.bytes.now + length self.new.rest.now ≤ length self.old.rest.now }
        ensures inside { All (λ byte. (byte ≢ 10) × (byte ≢ 59)) result.bytes.now }
        ensures ends_line { IsTrue result.ends_line
            ↔ (slice_get self.old.rest.now (length result.bytes.now) ≢ Some 59) }
        ensures shorter { 0 < length self.old.rest.now → length self.new.rest.now < length self.old.rest.now }
        ensures mark { self.new.mark ≡ self.old.mark }
    {
        let rest = self.rest;
        let end = rest
            .iter()
            .position(|byte| is_command_end(*byte))
            .unwrap_or(rest.len());
        let (bytes, rest) = rest.split_at(end);
        self.rest = match rest {
            [_, b' ', rest @ ..] | [_, rest @ ..] => rest,
            [] => rest,
        };
        Piece {
            bytes,
            ends_line: rest.first() != Some(&b';'),
        }
    }
}

impl<'a> Piece<'a> {
    // An empty line, or a line that begins with #.
    pub fn is_remark(&self) -> bool
        ensures { IsTrue result
            ↔ ((slice_get self.now.bytes.now 0 ≡ Some 35)
            ⊎ ((length self.now.bytes.now ≡ 0) × IsTrue self.now.ends_line)) }
    {
        self.bytes.starts_with(b"#") || (self.bytes.is_empty() && self.ends_line)
    }

    // A name ends at what is no letter and no space. What follows is the numbers or the text.
    pub fn name_and_rest(&self) -> (&'a [u8], &'a [u8])
        ensures parts { result.0.now ++ result.1.now ≡ self.now.bytes.now }
        ensures letters { All (λ byte. (byte < 65) × (byte ≢ 32) → ⊥) result.0.now }
    {
        let end = self
            .bytes
            .iter()
            .position(|byte| is_name_end(*byte))
            .unwrap_or(self.bytes.len());
        self.bytes.split_at(end)
    }
}

// A number with one digit more, or as it is at a space. One of more than 64 bits is the largest of
// 64 bits, and so is one with another byte.
fn appended(number: usize, byte: u8) -> usize {
    match byte {
        b' ' => number,
        b'0'..=b'9' if number < usize::MAX / 10 => number * 10 + usize::from(byte - b'0'),
        _ => usize::MAX,
    }
}

// The numbers of a text, with a space between them, at most five. One that is not there is 0.
pub fn numbers(text: &[u8]) -> [usize; 5] {
    let mut found = [0usize; 5];
    let parts = text.splitn(5, |byte| *byte == b' ');
    for (number, part) in found.iter_mut().zip(parts) {
        *number = part.iter().fold(0, |n, byte| appended(n, *byte));
    }
    found
}

// The text of a command, after the colon and the space before it.
pub fn text(rest: &[u8]) -> &[u8]
    ensures { result.now ≡ drop 2 rest.now }
{
    rest.get(2..).unwrap_or(&[])
}
