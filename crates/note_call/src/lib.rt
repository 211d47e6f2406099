// A note under an expanded key: counter mode (NIST SP 800-38A), and the call's checks 3, 4 and 12.
// Counter blocks do not wait for each other, so by word tables four of them are encrypted at a
// time.

#![tactic(auto)]

ghost use Rattle.std.specs.Prelude.{◌≡◌, [], ◌+◌, ◌*◌, ◌≤◌, ◌<◌, length};
ghost use Rattle.clefia_spec.specs.Block.{encrypt_under};
ghost use Rattle.call_answer.specs.Answer.{numbered, Answered};
ghost use Rattle.planbook_spec.specs.Note.{crypt_note_by};
ghost use Rattle.note_call.specs.NoteFilled.{NoteReady, crypted_note, NoteFilled};

use call_answer::Check;
use cipher_block::Cipher;
use cipher_ffunction::FFunctions;

// Four blocks of the note, from block i on.
fn write_four<F: FFunctions>(
    cipher: Cipher<'_, F>,
    counter: [u32; 4],
    i: u32,
    note: &[u8],
    out: &mut [u8],
)
    requires { NoteReady note.now out.old × (16 * i + 64 ≤ length note.now) }
    ensures { NoteFilled (16 * i) (crypted_note cipher.entry.expanded.now counter note.now)
        out.old → NoteFilled (16 * i + 64) (crypted_note cipher.entry.expanded.now counter note.now)
        out.new }
{
    let s = note_blocks::encrypt_four(cipher, counter, i);
    let a = s.a;
    let b = s.b;
    let c = s.c;
    let d = s.d;
    let at = 16 * i as usize;
    let second = at + 16;
    let third = second + 16;
    let fourth = third + 16;
    note_blocks::add_block(a, note, out, at);
    note_blocks::add_block(b, note, out, second);
    note_blocks::add_block(c, note, out, third);
    note_blocks::add_block(d, note, out, fourth);
}

// Where F waits for its tables, the whole blocks of the note by fours, as long as there are four;
// elsewhere none. Returns how many were written.
fn write_fours<F: FFunctions>(
    cipher: Cipher<'_, F>,
    counter: [u32; 4],
    note: &[u8],
    out: &mut [u8],
) -> u32
    requires { NoteReady note.now out.old }
    ensures { (16 * result ≤ length note.now)
        × NoteFilled (16 * result) (crypted_note cipher.entry.expanded.now counter note.now) out.new }
{
    if !F::waits() {
        return 0;
    }
    let fours = note.len() as u32 / 64;
    for i in 0..fours {
        write_four(cipher, counter, 4 * i, note, out);
    }
    4 * fours
}

// All whole blocks, those after the fours one by one; returns how many they are.
fn write_blocks<F: FFunctions>(
    cipher: Cipher<'_, F>,
    counter: [u32; 4],
    note: &[u8],
    out: &mut [u8],
) -> u32
    requires { NoteReady note.now out.old }
    ensures { (16 * result ≤ length note.now) × (length note.now < 16 * result + 16)
        × NoteFilled (16 * result) (crypted_note cipher.entry.expanded.now counter note.now) out.new }
{
    let written = write_fours(cipher, counter, note, out);
    let count = note.len() as u32 / 16;
    for i in written..count {
        let s = cipher.encrypt_words(note_blocks::counter_state(counter, i));
        note_blocks::add_block(s, note, out, 16 * i as usize);
    }
    count
}

fn write_note<F: FFunctions>(cipher: Cipher<'_, F>, counter: [u32; 4], note: &[u8], out: &mut [u8])
    requires { NoteReady note.now out.old }
    ensures { out.new ≡ crypted_note cipher.entry.expanded.now counter note.now }
{
    let count = write_blocks(cipher, counter, note, out);
    let at = 16 * count as usize;
    if at == note.len() {
        return;
    }
    let s = cipher.encrypt_words(note_blocks::counter_state(counter, count));
    note_blocks::add_part(s, &note[at..], &mut out[at..]);
}

// Checks 3, 4 and 12, and then the note encrypted or decrypted: both are the same. The count is
// that of its bytes.
pub fn crypt_note<F: FFunctions>(
    cipher: Cipher<'_, F>,
    counter: &[u8],
    note: &[u8],
    out: &mut [u8],
) -> Result<u64, Check>
    ensures { Answered (crypt_note_by [] (encrypt_under cipher.entry.expanded.now) counter.now
        note.now out.old) out.old (numbered result) out.new }
{
    if counter.len() != 16 {
        return Err(Check::BlockLength);
    }
    if out.len() != note.len() {
        return Err(Check::OutputLength);
    }
    if 16384 < note.len() {
        return Err(Check::NoteLength);
    }
    write_note(cipher, cipher_bytes::load(counter, 0), note, out);
    Ok(note.len() as u64)
}
