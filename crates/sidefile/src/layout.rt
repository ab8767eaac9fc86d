// Where the header's numbers stand, the columns of a row, and the two numbers that never vary. specs/Encode has the same
// for the definitions.
use units::Settings;

pub const MARK: [u8; 4] = *b"TWL\0";

pub const VERSION: u32 = 1;

pub const VERSION_AT: usize = 4;

pub const LAG_AT: usize = 6;

pub const SIZE_AT: usize = 8;

pub const CLOSED_AT: usize = 12;

pub const END_AT: usize = 16;

pub const ENTRIES_AT: usize = 20;

pub const SLOTS_AT: usize = 24;

pub const ZERO_AT: usize = 26;

pub const INDEX_SUM_AT: usize = 28;

pub const HEADER_SUM_AT: usize = 32;

// Columns of 32 bits, in a row of the index and at the front of one of the ledger. They are plain numbers, since the ledger's
// rows have further columns and its places have others: an enum of them would stand in each crate.
pub const PAGE: usize = 0;

pub const PLACE: usize = 1;

pub const CHANGED: usize = 2;

pub const SUM: usize = 3;

// Header and index at the largest settings: no test looks further.
pub const MOST_FRONT: usize = Settings::HEADER_LENGTH
    + Settings::INDEX_ROW * Settings::MOST_ENTRIES;
