// What the table answers: the slot of a page, the lowest empty slot, the victim. A search looks at the first `slots` of the 16
// rows.
ghost use Rattle.std.specs.Prelude.{◌≡◌, false, [], ◌≤◌, get_or};
ghost use Rattle.lists.specs.Options.{to_option};
ghost use Rattle.slots.specs.Table as Table;
ghost use Rattle.slots.specs.inner.Lent.{table_of};

use crate::Slots;
use units::Page;

// The slot among these that has the page.
pub fn slot_in(pages: &[Page; 16], slots: usize, page: Page) -> Option<usize>
    requires { slots ≤ 16 }
    ensures { to_option result ≡ Table.slot_of slots (table_of pages.now []) page.0 }
{
    pages[..slots].iter().position(|held| *held == page)
}

impl Slots {
    #[tactic(auto, unfolding(crate::specs::Table::slot_of, crate::specs::Table::page_at))]
    pub fn slot_of(self, slots: usize, page: Page) -> Option<usize>
        requires { slots ≤ 16 }
        ensures { to_option result ≡ Table.slot_of slots self page.0 }
    {
        slot_in(&self.pages, slots, page)
    }

    #[tactic(auto, unfolding(crate::specs::Table::lowest_empty, crate::specs::Table::vacant, crate::specs::Table::slot_of, crate::specs::Table::page_at))]
    pub fn lowest_empty(self, slots: usize) -> Option<usize>
        requires { slots ≤ 16 }
        ensures { to_option result ≡ Table.lowest_empty slots self }
    {
        slot_in(&self.pages, slots, Slots::NO_PAGE)
    }

    // The slot used longest ago that `mask` does not spare. Document 01 names the form: a search over the order of use that
    // yields by `break`, the look-up of the slot nested in it.
    pub fn victim(self, slots: usize, mask: [bool; 16]) -> Option<usize>
        requires { (slots ≤ 16) × (self.used ≤ 16) }
        ensures { to_option result ≡ Table.victim slots (λ i. get_or mask i false) self }
    {
        'search: {
            for page in &self.order[..self.used as usize] {
                if let Some(i) = slot_in(&self.pages, slots, *page) {
                    if !mask[i] {
                        break 'search Some(i);
                    }
                }
            }
            None
        }
    }
}
