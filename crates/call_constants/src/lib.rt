// The call for the constants of a key length.

#![tactic(auto)]

ghost use Rattle.planbook_spec.specs.Checks.{constants_call};
ghost use Rattle.call_answer.specs.Answer.{numbered, Answered};

use call_answer::Check;
use cipher_tables::constants;

pub fn constants(key_length: u64, out: &mut [u8]) -> Result<u64, Check>
    ensures { Answered (constants_call key_length out.old) out.old (numbered result) out.new }
{
    match key_length {
        16 => call_checks::write_words(constants::sixteen(), out),
        24 => call_checks::write_words(constants::twenty_four(), out),
        32 => call_checks::write_words(constants::thirty_two(), out),
        _ => Err(Check::KeyLength),
    }
}
