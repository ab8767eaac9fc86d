// Rows of equal width in lent bytes, whose numbers are columns of 32 bits. Rows of w bytes begin at byte `at`: 16 bytes from
// byte 36 on in the index of a side file, 20 from byte 0 on in the ledger. Both begin with the columns of an index entry.
// These functions read one row, also of bytes that are being written; table.rt has whole tables.
ghost use Rattle.std.specs.Prelude.{◌≡◌, ◌+◌, ◌*◌, ◌≤◌, ◌<◌, eqb, length};
ghost use Rattle.lists.specs.Scans.{all_of};
ghost use Rattle.octets.specs.Part.{part};
ghost use Rattle.octets.specs.Rows.{row};
ghost use Rattle.sidefile.specs.Encode.{index_entry_of};
ghost use Rattle.sidefile.specs.inner.Table.{column};

use crate::{IndexEntry, layout};
use units::{Page, Place, Tick};

// Column c of row i.
#[tactic(auto, using(crate::specs::inner::Table::column_at))]
pub fn number(s: &[u8], at: usize, w: usize, i: usize, c: usize) -> u32
    requires { (at + i * w + w ≤ length s.now) × (4 * c + 4 ≤ w) }
    ensures { (result ≡ column c (row at w i s.now)) × (result < 4294967296) }
{
    octets::load32(s, at + i * w + 4 * c)
}

// The entry in row i.
#[tactic(auto, unfolding(crate::specs::Encode::index_entry_of, crate::specs::inner::Table::column))]
pub fn entry(s: &[u8], at: usize, w: usize, i: usize) -> IndexEntry
    requires { (at + i * w + w ≤ length s.now) × (16 ≤ w) }
    ensures { result ≡ index_entry_of (row at w i s.now) }
{
    IndexEntry {
        page: Page(number(s, at, w, i, layout::PAGE)),
        place: Place(number(s, at, w, i, layout::PLACE)),
        changed: Tick(number(s, at, w, i, layout::CHANGED)),
        sum: number(s, at, w, i, layout::SUM),
    }
}

// n bytes are zero. No early return: the compiler then compares many at once.
pub fn zeros(s: &[u8], at: usize, n: usize) -> bool
    requires { at + n ≤ length s.now }
    ensures { result ≡ all_of (eqb 0) (part s.now at n) }
{
    s[at..at + n]
        .iter()
        .fold(true, |clear, b| clear & (*b == 0))
}
