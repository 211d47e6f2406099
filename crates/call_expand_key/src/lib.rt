// The call that expands a key: checks 1 and 2, the words, and check 4 before they are written.

#![tactic(auto)]

ghost use Rattle.std.specs.Prelude.{◌≡◌, length};
ghost use Rattle.clefia_spec.specs.Words.{by_key_length, KeyLength};
ghost use Rattle.planbook_spec.specs.Checks.{expand_key_call};
ghost use Rattle.call_answer.specs.Answer.{numbered, Answered};
ghost use Rattle.call_expand_key.specs.ExpandLaws.{expanded_call};

use call_answer::Check;
use call_checks::Way;
use cipher_ffunction::{ByteByByte, FFunctions};
use cipher_sbox::ByRules;
use cipher_tables::boxes::ByTables;
use cipher_word_tables::ByWordTables;

// The words of a key, and then check 4 and their bytes.
fn write_expanded<F: FFunctions>(
    key: &[u8],
    expanded: &mut [u32],
    out: &mut [u8],
) -> Result<u64, Check>
    requires key_length { KeyLength (length key.now) }
    requires expanded_len { length expanded.old ≡ by_key_length (length key.now) 40 48 56 }
    ensures { Answered (expanded_call key.now out.old) out.old (numbered result) out.new }
{
    cipher_key_schedule::expand_key::<F>(key, expanded);
    call_checks::write_words(expanded, out)
}

// The same by a way.
fn write_by(way: Way, key: &[u8], expanded: &mut [u32], out: &mut [u8]) -> Result<u64, Check>
    requires key_length { KeyLength (length key.now) }
    requires expanded_len { length expanded.old ≡ by_key_length (length key.now) 40 48 56 }
    ensures { Answered (expanded_call key.now out.old) out.old (numbered result) out.new }
{
    match way {
        Way::ByteTables => write_expanded::<ByteByByte<ByTables>>(key, expanded, out),
        Way::WordTables => write_expanded::<ByWordTables>(key, expanded, out),
        Way::Rules => write_expanded::<ByteByByte<ByRules>>(key, expanded, out),
    }
}

pub fn expand_key(key: &[u8], way: u64, out: &mut [u8]) -> Result<u64, Check>
    ensures { Answered (expand_key_call key.now way out.old) out.old (numbered result) out.new }
{
    let count = call_checks::check_key(key)?;
    let way = Way::try_from(way)?;
    let mut expanded = [0u32; 56];
    write_by(way, key, &mut expanded[..count], out)
}
