// What a side file or a held buffer says, so that no C program takes a header apart. Both calls take any bytes.
ghost use Rattle.std.specs.Prelude.{◌≡◌};
ghost use Rattle.sidefile.specs.Told.{told, entry_told};

use sidefile::told::{EntryTold, Told};

// 11, 12 or 0, and what the header says. The files do not name E: the capacity told is the largest.
#[unsafe(no_mangle)]
pub extern "C" fn ungletice_header_of(front: &[u8]) -> Told
    ensures { result ≡ told front.now }
{
    sidefile::told::header_told(front)
}

// Entry i of the index, of as many as the header counts.
#[unsafe(no_mangle)]
pub extern "C" fn ungletice_entry_of(front: &[u8], i: u32) -> EntryTold
    ensures { result ≡ entry_told front.now i }
{
    sidefile::told::entry_told(front, i)
}
