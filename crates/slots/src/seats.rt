// A page that needs a slot: which one it gets, and the table with it there. The two are apart, so that a call can find out
// that there is none before it changes anything.
ghost use Rattle.std.specs.Prelude.{◌≡◌, false, ℕ, ◌≤◌, get_or};
ghost use Rattle.slots.specs.Table.{seated};
ghost use Rattle.slots.specs.inner.Answers as Answers;
ghost use Rattle.slots.specs.inner.Asked.{Takes};

use crate::Slots;
use units::Page;

// The slot that a page gets, and whether a page is evicted for it: a flag beside the slot, as the definition `Table: Seat` has it.
#[derive(Clone, Copy)]
pub struct Seat {
    pub slot: usize,
    pub evicts: bool,
}

impl Slots {
    // The lowest empty slot, else that of the victim. It is the same for every page.
    #[tactic(auto, unfolding(crate::specs::Table::seated, crate::specs::Table::seat_in))]
    pub fn seat(self, slots: usize, mask: [bool; 16]) -> Option<Seat>
        requires { (slots ≤ 16) × (self.used ≤ 16) }
        ensures { (p : ℕ) → result ≡ Answers.seating (seated slots (λ i. get_or mask i false) p self) }
    {
        if let Some(slot) = self.lowest_empty(slots) {
            return Some(Seat {
                slot,
                evicts: false,
            });
        }
        let slot = self.victim(slots, mask)?;
        Some(Seat { slot, evicts: true })
    }

    // The page comes into its slot.
    pub fn take(self, seat: Seat, page: Page) -> Slots
        requires { Takes seat.slot seat.evicts self }
        ensures { result ≡ Answers.taken seat.slot seat.evicts page.0 self }
    {
        if seat.evicts {
            self.evict(seat.slot, page)
        } else {
            self.load(seat.slot, page)
        }
    }
}
