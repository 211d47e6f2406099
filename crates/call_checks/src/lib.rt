// Checks 1, 2, 4 and 14, each by itself: a call makes those that it needs, in its own order.

#![tactic(auto)]

ghost use Rattle.std.specs.Prelude.{◌≡◌, [], ◌∷◌, length, ◌*◌, ◌≤◌};
ghost use Rattle.clefia_spec.specs.Words.{bytes_of};
ghost use Rattle.planbook_spec.specs.Outcome.{accepted, judged};
ghost use Rattle.planbook_spec.specs.Checks.{output_check};
ghost use Rattle.call_answer.specs.Answer.{numbered, Answered};
ghost use Rattle.call_checks.specs.CheckAnswers.{key_answer, words_answer};
ghost use Rattle.call_checks.specs.Ways.{way_of};

use call_answer::Check;

// Check 1, of a key. The count is that of the expanded key's words: four that whiten and two for
// each of 18, 22 or 26 rounds, which is 24 more than the key has bytes.
pub fn check_key(key: &[u8]) -> Result<usize, Check>
    ensures { numbered result ≡ key_answer key.now }
{
    match key.len() {
        16 | 24 | 32 => Ok(24 + key.len()),
        _ => Err(Check::KeyLength),
    }
}

// Check 14, of an expanded key given as bytes. The count is that of its words.
pub fn check_words(words: &[u8]) -> Result<usize, Check>
    ensures { numbered result ≡ words_answer words.now }
{
    match words.len() {
        160 | 192 | 224 => Ok(words.len() / 4),
        _ => Err(Check::WordsLength),
    }
}

// The strategies of the cipher, which C numbers from 1.
#[derive(Clone, Copy, PartialEq, Eq)]
pub enum Way {
    ByteTables,
    WordTables,
    Rules,
}

// Check 2, of a way.
impl TryFrom<u64> for Way {
    type Error = Check;

    ghost try_from_gives = { λ n way. way ≡ way_of n };

    fn try_from(number: u64) -> Result<Way, Check> {
        match number {
            1 => Ok(Way::ByteTables),
            2 => Ok(Way::WordTables),
            3 => Ok(Way::Rules),
            _ => Err(Check::Way),
        }
    }
}

// Check 4, and then the words as bytes; the count is that of the words.
pub fn write_words(src: &[u32], out: &mut [u8]) -> Result<u64, Check>
    requires { length src.now ≤ 92 }
    ensures { Answered (judged (output_check (4 * length src.now) out.old ∷ [])
        (accepted (length src.now) (bytes_of src.now))) out.old (numbered result) out.new }
{
    if out.len() != 4 * src.len() {
        return Err(Check::OutputLength);
    }
    cipher_bytes::store_all(out, src);
    Ok(src.len() as u64)
}
