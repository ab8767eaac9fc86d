// The judge of the slot rules, for any table. It counts: each page in the order of use is below e and in one row, each
// occupied row is a slot whose page is once in the order of use, each empty row is not changed. Nothing else is left of the
// rules, and counting all elements is quicker than a search that may stop at each.
ghost use Rattle.std.specs.Prelude.{◌≡◌, ◌≤◌, ◌<◌};
ghost use Rattle.lists.specs.Below.{below};
ghost use Rattle.lists.specs.Scans.{all_of};
ghost use Rattle.units.specs.inner.Pages.{numbers_of};
ghost use Rattle.slots.specs.Table as Table;
ghost use Rattle.slots.specs.Rules.{slot_rules};
ghost use Rattle.slots.specs.inner.Judged as Judged;

use crate::Slots;
use units::Page;

// How often `page` stands in the first `n` elements. All 16 are looked at and no test branches, so that the compiler makes a
// few vector instructions of it.
#[inline(always)]
fn times(list: &[Page; 16], n: usize, page: Page) -> u32
    requires { n ≤ 16 }
    ensures { result ≡ Table.times page.0 (numbers_of n list.now) }
{
    let mut count = 0;
    for (i, held) in list.iter().enumerate() {
        count += u32::from(*held == page && i < n);
    }
    count
}

impl Slots {
    // Row i is empty and not changed, or a slot whose page is once in the order of use.
    #[tactic(auto, unfolding(crate::specs::inner::Judged::row_kept, crate::specs::Table::vacant, crate::specs::Table::changed_at, crate::specs::Table::page_at, crate::specs::Table::uses))]
    #[inline(always)]
    fn row_kept(&self, slots: usize, i: usize) -> bool
        requires { (self.now.used ≤ 16) × (i < 16) }
        ensures { result ≡ Judged.row_kept slots self.now i }
    {
        let held = self.pages[i];
        if held == Slots::NO_PAGE {
            return self.changed[i] == 0;
        }
        i < slots && times(&self.order, self.used as usize, held) == 1
    }

    fn rows_kept(&self, slots: usize) -> bool
        requires { self.now.used ≤ 16 }
        ensures { result ≡ all_of (Judged.row_kept slots self.now) (below 16) }
    {
        (0..16).all(|i| self.row_kept(slots, i))
    }

    // A page in the order of use is below e and in one row.
    #[tactic(auto, unfolding(crate::specs::inner::Judged::use_kept))]
    #[inline(always)]
    fn use_kept(&self, end: u32, page: Page) -> bool
        ensures { result ≡ Judged.use_kept end self.now.pages page.0 }
    {
        page.0 < end && times(&self.pages, 16, page) == 1
    }

    // A `for`, since `all` of a slice was measured to be slower here.
    fn uses_kept(&self, end: u32) -> bool
        requires { self.now.used ≤ 16 }
        ensures { result ≡ all_of (Judged.use_kept end self.now.pages) (Table.uses self.now) }
    {
        for page in &self.order[..self.used as usize] {
            if !self.use_kept(end, *page) {
                return false;
            }
        }
        true
    }

    pub fn keeps_rules(&self, slots: usize, end: u32) -> bool
        requires { slots ≤ 16 }
        ensures { result ≡ slot_rules slots end self.now }
    {
        self.used <= 16 && self.rows_kept(slots) && self.uses_kept(end)
    }
}
