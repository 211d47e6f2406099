// The numbers of the format, under the names of the C header, and the number that two bytes write.

#![tactic(auto)]

ghost use Rattle.std.specs.Prelude.{◌≡◌, ◌+◌, ◌≤◌, length};
ghost use Rattle.planbook_spec.specs.Book.{number};

pub const HEAD_BYTES: usize = 4;

pub const ENTRY_BYTES: usize = 24;

pub const RECORD_BYTES: usize = 16;

pub const MAX_SHEETS: usize = 64;

pub const MAX_SHEET_RECORDS: usize = 1024;

pub const MAX_REPLICATES: u32 = 8;

pub const DEFAULT_REPLICATES: u32 = 4;

pub const MAX_ROW: u32 = 999;

pub const MAX_COLUMN: u32 = 999;

pub const MAX_BOOK_BYTES: usize = 65532;

pub const CLEAR: u8 = 1;

pub const SEALED: u8 = 2;

// The number at `at`, the highest byte first.
pub fn u16_at(src: &[u8], at: usize) -> usize
    requires { at + 2 ≤ length src.now }
    ensures { result ≡ number at 2 src.now }
{
    usize::from(u16::from_be_bytes([src[at], src[at + 1]]))
}
