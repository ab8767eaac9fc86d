// The page buffer: which slots may not be chosen, the slot in which a page is used, and the page's bytes there. A slot is chosen
// before anything is changed, and the table with the page in it is made afterwards: a table that came back with the answer
// would be copied once more.
ghost use Rattle.std.specs.Prelude.{◌≡◌, true, false, ℕ, [], ◌+◌, ◌*◌, ◌<◌, ◌≤◌, length, get_or};
ghost use Rattle.octets.specs.Rows.{page};
ghost use Rattle.slots.specs.laws.Sits.{Whole};
ghost use Rattle.recorder.specs.Calls as Calls;
ghost use Rattle.recorder.specs.Outcome.{lent};
ghost use Rattle.recorder.specs.Rules.{rules};
ghost use Rattle.recorder.specs.inner.Using.{slot_in, Places, placed, Seated, Chosen, brought_to};

use crate::State;
use ledger::search;
use slots::{Seat, Slots, lookup};
use std::array;
use units::Page;

// Where a page is used: in its own slot, or in one that it takes, for which a page may have to go.
#[derive(Clone, Copy)]
pub enum Use {
    Hit(usize),
    Taken(Seat),
}

impl Use {
    pub fn slot(self) -> usize
        ensures { result ≡ slot_in self }
    {
        match self {
            Use::Hit(slot) => slot,
            Use::Taken(seat) => seat.slot,
        }
    }

    // The table with the page used in its slot.
    pub fn place(self, table: Slots, page: Page) -> Slots
        requires { Places self page.0 table }
        ensures { result ≡ placed self page.0 table }
    {
        match self {
            Use::Hit(_) => table.touch(page),
            Use::Taken(seat) => table.take(seat, page),
        }
    }
}

// The page in a slot is changed or owed, so that the slot may not be chosen. `whole` is told because a caller does not know the
// lengths of arrays behind a reference. The rules are asked, not a type's: C hands the state over, and each call judges it.
#[tactic(auto, using(crate::proofs::Bringing::search_asks), unfolding(crate::specs::Calls::unclean, crate::specs::World::entries_of, slots::specs::Table::changed_at, slots::specs::Table::page_at))]
fn unclean(state: &State, ledger: &[u8], i: usize) -> bool
    requires { (rules (lent state.now ledger.now [] [] [] []) ≡ true) × (i < 16) }
    ensures unclean { result ≡ Calls.unclean (lent state.now ledger.now [] [] [] []) i }
    ensures whole { Whole state.now.slots }
{
    state.slots.changed[i] != 0
        || search::owed_page(
            ledger,
            state.entries as usize,
            state.settings.wait(),
            state.closed,
            state.slots.pages[i],
        )
}

// Which slots may not be chosen.
fn unclean_slots(state: &State, ledger: &[u8]) -> [bool; 16]
    requires { rules (lent state.now ledger.now [] [] [] []) ≡ true }
    ensures unclean { (i : ℕ) → i < 16 → get_or result i false ≡ Calls.unclean (lent state.now ledger.now [] [] [] []) i }
    ensures whole { Whole state.now.slots }
{
    array::from_fn(|i| unclean(state, ledger, i))
}

// The slot that a page gets which is in none, for the pages below e and e itself.
pub fn seat_for(state: &State, ledger: &[u8]) -> Option<Seat>
    requires { rules (lent state.now ledger.now [] [] [] []) ≡ true }
    ensures { (p : ℕ) → p ≤ state.now.end → Seated (lent state.now ledger.now [] [] [] []) p result }
{
    let mask = unclean_slots(state, ledger);
    state.slots.seat(state.settings.slots as usize, mask)
}

// For one of the file's pages, or the next that it gets.
pub fn slot_for(state: &State, ledger: &[u8], page: Page) -> Option<Use>
    requires { (rules (lent state.now ledger.now [] [] [] []) ≡ true) × (page.0 ≤ state.now.end) }
    ensures { Chosen (lent state.now ledger.now [] [] [] []) page.0 result }
{
    let slots = state.settings.slots as usize;
    if let Some(slot) = lookup::slot_in(&state.slots.pages, slots, page) {
        return Some(Use::Hit(slot));
    }
    let seat = seat_for(state, ledger)?;
    Some(Use::Taken(seat))
}

// The bytes of page k in its slot: they are there on a hit, else they come from the base.
pub fn bring(used: Use, base: &[u8], k: usize, buffer: &mut [u8], size: u32)
    requires { (k * size + size ≤ length base.now) × (slot_in used * size + size ≤ length buffer.old) }
    ensures { buffer.new ≡ brought_to used size (page size k base.now) buffer.old }
{
    if let Use::Taken(seat) = used {
        let n = size as usize;
        octets::copy(base, k * n, buffer, seat.slot * n, n);
    }
}
