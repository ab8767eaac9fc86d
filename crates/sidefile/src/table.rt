// A table of entries in lent bytes: the index of a side file, or the entries of the ledger. Both are searched and judged here.
ghost use Rattle.std.specs.Prelude.{◌+◌, ◌*◌, ◌≤◌, length};

use crate::{IndexEntry, layout, rows};
use units::{Page, Settings, Tick};

// The first row begins at byte `at`, and all of them lie inside the bytes.
#[derive(Clone, Copy)]
pub struct Table<'a> {
    pub bytes: &'a [u8],
    pub at: usize,
    pub width: usize,
    pub rows: usize,
    ghost inside: { at + rows * width ≤ length bytes.now },
}

impl<'a> Table<'a> {
    ghost use Rattle.std.specs.Prelude.{◌≡◌, ◌+◌, ◌*◌, ◌≤◌, ◌<◌, length, position};
    ghost use Rattle.octets.specs.Rows.{row};
    ghost use Rattle.units.specs.Sizes.{header_length, index_row};
    ghost use Rattle.sidefile.specs.Encode.{index_entry_of};
    ghost use Rattle.sidefile.specs.inner.Table.{column, of_page, pages_fit, places_fit, changes_fit};
    ghost use Rattle.sidefile.specs.inner.Tables.{IndexAt, entries_in};

    // The index of a side file or a held buffer, as far as its first `rows` entries.
    pub fn index(bytes: &'a [u8], rows: usize) -> Table<'a>
        requires { header_length + rows * index_row ≤ length bytes.now }
        ensures { IndexAt bytes.now rows result }
    {
        Table {
            bytes,
            at: Settings::HEADER_LENGTH,
            width: Settings::INDEX_ROW,
            rows,
        }
    }

    // Column c of row i.
    pub fn number(&self, i: usize, c: usize) -> u32
        requires { (i < self.now.rows) × (4 * c + 4 ≤ self.now.width) }
        ensures { (result ≡ column c (row self.now.at self.now.width i self.now.bytes.now)) × (result < 4294967296) }
    {
        rows::number(self.bytes, self.at, self.width, i, c)
    }

    // The entry in row i.
    pub fn entry(&self, i: usize) -> IndexEntry
        requires { (i < self.now.rows) × (16 ≤ self.now.width) }
        ensures { result ≡ index_entry_of (row self.now.at self.now.width i self.now.bytes.now) }
    {
        rows::entry(self.bytes, self.at, self.width, i)
    }

    // Which row is the first of a page.
    pub fn find(&self, page: Page) -> Option<usize>
        requires { 4 ≤ self.now.width }
        ensures { result ≡ position (of_page page.0) (entries_in self.now) }
    {
        (0..self.rows).position(|i| Page(self.number(i, layout::PAGE)) == page)
    }

    // The pages ascend strictly and are below end.
    #[tactic(auto, unfolding(crate::specs::inner::Table::pages_fit, crate::proofs::Scans::rising), using(crate::proofs::Scans::rising_stops, crate::proofs::Scans::rising_next, crate::proofs::Scans::rising_end))]
    pub fn ascending_below(&self, end: u32) -> bool
        requires { 4 ≤ self.now.width }
        ensures { result ≡ pages_fit end (entries_in self.now) }
    {
        let mut low: u32 = 0;
        for i in 0..self.rows {
            let page = self.number(i, layout::PAGE);
            if !(low..end).contains(&page) {
                return false;
            }
            low = page + 1;
        }
        true
    }

    // The places are below most, and none is used twice. The flags say which were met.
    #[tactic(auto, using(crate::proofs::Scans::fresh_first, crate::proofs::Scans::fresh_far, crate::proofs::Scans::fresh_met, crate::proofs::Scans::fresh_next, crate::proofs::Scans::fresh_end))]
    pub fn places_apart(&self, most: usize) -> bool
        requires { (8 ≤ self.now.width) × (most ≤ 272) }
        ensures { result ≡ places_fit most (entries_in self.now) }
    {
        let mut met = [0u8; Settings::PLACE_FLAGS];
        for i in 0..self.rows {
            let place = self.number(i, layout::PLACE) as usize;
            if most <= place || octets::flag(&met, place) {
                return false;
            }
            octets::raise(&mut met, place);
        }
        true
    }

    // The last changes are at most this tick. A loop: `all` takes two instructions more a row where the judge calls it.
    #[tactic(auto, using(crate::proofs::Scans::changed_late, crate::proofs::Scans::changed_next, crate::proofs::Scans::changed_end))]
    pub fn changes_by(&self, tick: Tick) -> bool
        requires { 12 ≤ self.now.width }
        ensures { result ≡ changes_fit tick (entries_in self.now) }
    {
        for i in 0..self.rows {
            if tick < Tick(self.number(i, layout::CHANGED)) {
                return false;
            }
        }
        true
    }
}
