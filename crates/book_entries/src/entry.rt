// An entry of the contents, 24 bytes: read as its sheet, where it holds.
ghost use Rattle.std.specs.Prelude.{◌≡◌, length};
ghost use Rattle.planbook_spec.specs.Book.{replicates};
ghost use Rattle.book_entries.specs.Entry.{sheet_of, entry_of};

use book_format::u16_at;

#[derive(Clone, Copy)]
pub struct Sheet {
    pub trial: u32,
    // How many records.
    pub count: usize,
    // The greatest replicate that a record may have.
    pub replicates: u32,
}

// The number of replicates. The books of past seasons have 0, which is read as 4.
#[tactic(auto, unfolding(planbook_spec::specs::Book::replicates))]
fn read_replicates(entry: &[u8]) -> u32
    requires { length entry.now ≡ 24 }
    ensures { result ≡ replicates entry.now }
{
    match entry[6] {
        0 => book_format::DEFAULT_REPLICATES,
        chosen => u32::from(chosen),
    }
}

// The sheet that an entry describes, whether it holds or not.
pub fn read_sheet(entry: &[u8]) -> Sheet
    requires { length entry.now ≡ 24 }
    ensures { result ≡ sheet_of entry.now }
{
    Sheet {
        trial: cipher_bytes::word(entry, 0),
        count: u16_at(entry, 4),
        replicates: read_replicates(entry),
    }
}

// The sheet, where the entry holds. `previous` is the trial of the entry before, or 0.
#[tactic(auto, unfolding(planbook_spec::specs::Book::entry_holds))]
pub fn read_entry(entry: &[u8], previous: u32) -> Option<Sheet>
    requires { length entry.now ≡ 24 }
    ensures { result ≡ entry_of previous entry.now }
{
    let sheet = read_sheet(entry);
    let holds = previous < sheet.trial
        && 1 <= sheet.count
        && sheet.count <= book_format::MAX_SHEET_RECORDS
        && sheet.replicates <= book_format::MAX_REPLICATES
        && entry[7] == 0;
    holds.then_some(sheet)
}
