// Reading into a space of fixed length.
ghost use Rattle.std.specs.Prelude.{take};
ghost use Rattle.std.specs.Io.KnownBytes.{Consumes};
ghost use Rattle.test_script.specs.Prefix.{IsPrefixLen};

use std::io::Read;

// Reads until the space is full, the input ends or a read fails, and answers how many bytes stand
// at the start of the space.
pub fn read_full<R: Read>(input: &mut R, space: &mut [u8]) -> usize
    ensures within { IsPrefixLen result space.new }
    ensures bytes { Consumes (R.remaining input.old) (R.remaining input.new)
        (take result space.new) }
{
    let mut done = 0;
    while done < space.len() {
        match input.read(&mut space[done..]) {
            Ok(0) => break,
            Ok(n) => done += n,
            Err(_) => break,
        }
    }
    done
}

// Reads a script from standard input. What is read counts even where that it is too long could not
// be said.
pub fn read_script(rt: &(impl Input + Print), space: &mut [u8]) -> usize
    ensures { IsPrefixLen result space.new }
{
    let n = read_full(&mut rt.reader(), space);
    if n == space.len() {
        let _ = rt.write_all(b"script too long\n");
    }
    n
}
