// One block under an expanded key: checks 3 and 4, and then the block encrypted or decrypted.

#![tactic(auto)]

ghost use Rattle.call_answer.specs.Answer.{numbered, Answered};
ghost use Rattle.call_block.specs.BlockUnder.{block_under};

use call_answer::Check;
use cipher_block::Cipher;
use cipher_ffunction::FFunctions;

pub fn crypt_block<F: FFunctions>(
    decrypting: bool,
    cipher: Cipher<'_, F>,
    block: &[u8],
    out: &mut [u8],
) -> Result<u64, Check>
    ensures { Answered (block_under decrypting cipher.entry.expanded.now block.now out.old)
        out.old (numbered result) out.new }
{
    if block.len() != 16 {
        return Err(Check::BlockLength);
    }
    if out.len() != 16 {
        return Err(Check::OutputLength);
    }
    if decrypting {
        cipher.decrypt_block(block, out);
        return Ok(1);
    }
    cipher.encrypt_block(block, out);
    Ok(1)
}
