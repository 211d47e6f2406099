// The calls that take words, below the border: checks 14 and 2, the words read, the task done.

#![tactic(auto)]

ghost use Rattle.std.specs.Prelude.{◌≡◌, length, ◌*◌, ◌≤◌};
ghost use Rattle.planbook_spec.specs.Checks.{words_from_bytes};
ghost use Rattle.call_answer.specs.Answer.{numbered, Answered};
ghost use Rattle.call_tasks.specs.Tasks.{under, task_call};

use call_answer::Check;
use call_checks::Way;
use call_tasks::{Task, perform};
use cipher_block::Cipher;
use cipher_ffunction::ByteByByte;
use cipher_sbox::ByRules;
use cipher_tables::boxes::ByTables;
use cipher_word_tables::ByWordTables;

// The words read, and the task done under them by a way.
fn perform_by(
    task: Task<'_>,
    way: Way,
    words: &[u8],
    expanded: &mut [u32],
    src: &[u8],
    out: &mut [u8],
) -> Result<u64, Check>
    requires words_len { length words.now ≡ 4 * length expanded.old }
    requires in_bounds { 4 ≤ length expanded.old }
    ensures { Answered (under task.entry (words_from_bytes words.now) src.now
        out.old) out.old (numbered result) out.new }
{
    cipher_bytes::load_all(expanded, words);
    match way {
        Way::ByteTables => {
            perform(
                task,
                Cipher::<ByteByByte<ByTables>>::new(expanded),
                src,
                out,
            )
        }
        Way::WordTables => perform(task, Cipher::<ByWordTables>::new(expanded), src, out),
        Way::Rules => perform(task, Cipher::<ByteByByte<ByRules>>::new(expanded), src, out),
    }
}

// Every call that takes words: checks 14 and 2, and then its task.
pub fn call(
    task: Task<'_>,
    words: &[u8],
    way: u64,
    src: &[u8],
    out: &mut [u8],
) -> Result<u64, Check>
    ensures { Answered (task_call task.entry words.now way src.now
        out.old) out.old (numbered result) out.new }
{
    let count = call_checks::check_words(words)?;
    let way = Way::try_from(way)?;
    let mut expanded = [0u32; 56];
    perform_by(task, way, words, &mut expanded[..count], src, out)
}
