// What changes the table: a use, a load, an eviction, a change, a close; and the tables of an open. Each method takes the table
// by `mut self` and hands it back, the form that document 01 names.
ghost use Rattle.std.specs.Prelude.{◌≡◌, ◌≤◌, ◌<◌};
ghost use Rattle.slots.specs.Table as Table;
ghost use Rattle.slots.specs.inner.Answers.{fresh, relisted};

use crate::Slots;
use units::Page;

impl Slots {
    #[tactic(auto, unfolding(crate::specs::Table::no_slots, crate::specs::Table::zero_slots))]
    pub fn empty() -> Slots
        ensures { result ≡ Table.no_slots }
    {
        Slots {
            pages: [Slots::NO_PAGE; 16],
            ..Slots::zero()
        }
    }

    #[tactic(auto, unfolding(crate::specs::Table::zero_slots))]
    pub fn zero() -> Slots
        ensures { result ≡ Table.zero_slots }
    {
        Slots {
            pages: [Page(0); 16],
            changed: [0; 16],
            order: [Page(0); 16],
            used: 0,
        }
    }

    // The page is in the slot, not changed.
    fn put(mut self, slot: usize, page: Page) -> Slots
        requires { slot < 16 }
        ensures { result ≡ fresh slot page.0 self }
    {
        self.pages[slot] = page;
        self.changed[slot] = 0;
        self
    }

    // In the order of use `gone` makes way and `page` is last. From the end on: what was used last is most often used again.
    fn relist(mut self, gone: Page, page: Page) -> Slots
        requires { (self.used ≤ 16) × (Table.times gone.0 (Table.uses self) ≡ 1) }
        ensures { result ≡ relisted gone.0 page.0 self }
    {
        let mut carry = page;
        for i in (0..self.used as usize).rev() {
            let next = self.order[i];
            self.order[i] = carry;
            if next == gone {
                break;
            }
            carry = next;
        }
        self
    }

    // The page, which is in a slot, is the most recently used.
    #[tactic(auto, unfolding(crate::specs::Table::touched, crate::specs::inner::Answers::relisted))]
    pub fn touch(mut self, page: Page) -> Slots
        requires { (self.used ≤ 16) × (Table.times page.0 (Table.uses self) ≡ 1) }
        ensures { result ≡ Table.touched page.0 self }
    {
        self = self.relist(page, page);
        self
    }

    // An empty slot takes a page.
    #[tactic(auto, using(crate::proofs::Listing::set_last), unfolding(crate::specs::Table::loaded, crate::specs::Table::uses))]
    pub fn load(mut self, slot: usize, page: Page) -> Slots
        requires { (slot < 16) × (self.used < 16) }
        ensures { result ≡ Table.loaded slot page.0 self }
    {
        self.order[self.used as usize] = page;
        self.used += 1;
        self.put(slot, page)
    }

    // A slot gives up its page for another.
    #[tactic(auto, unfolding(crate::specs::Table::evicted, crate::specs::Table::page_at, crate::specs::inner::Answers::relisted))]
    pub fn evict(mut self, slot: usize, page: Page) -> Slots
        requires { (slot < 16) × (self.used ≤ 16) × (Table.times (Table.page_at self slot) (Table.uses self) ≡ 1) }
        ensures { result ≡ Table.evicted slot page.0 self }
    {
        let gone = self.pages[slot];
        self = self.relist(gone, page);
        self.put(slot, page)
    }

    // The page in the slot is changed.
    #[tactic(auto, unfolding(crate::specs::Table::marked))]
    pub fn mark(mut self, slot: usize) -> Slots
        requires { slot < 16 }
        ensures { result ≡ Table.marked slot self }
    {
        self.changed[slot] = 1;
        self
    }

    // No page is changed any more.
    #[tactic(auto, unfolding(crate::specs::Table::unmarked))]
    pub fn unmark(mut self) -> Slots
        ensures { result ≡ Table.unmarked self }
    {
        self.changed = [0; 16];
        self
    }
}
