// The judge that every call but open begins with: the state rules, the lengths of the lent slices, and the two rules that
// look into the kind table. It takes any state and any slices.
ghost use Rattle.std.specs.Prelude.{◌≡◌, true, [], ◌≤◌, length, take, All};
ghost use Rattle.std.specs.List.{list_all};
ghost use Rattle.units.specs.Refusals as Refusals;
ghost use Rattle.units.specs.Sizes.{limits};
ghost use Rattle.units.specs.Tests.{verdict};
ghost use Rattle.recorder.specs.Outcome.{lent};
ghost use Rattle.recorder.specs.Rules as Rules;
ghost use Rattle.recorder.specs.inner.Seats.{SeatBelow, seat_fits};
ghost use Rattle.recorder.specs.inner.Tests.{among};
ghost use Rattle.recorder.specs.World.{zero_state};

use crate::kinds::Kind;
use crate::{Files, State};
use ledger::judge;
use slots::Slots;
use units::{Page, Refusal, Settings};

// The rules that need no other slice than the ledger.
#[tactic(auto, using(crate::proofs::Judging::rules_asked, crate::proofs::Judging::limits_slots))]
fn keeps_rules(state: &State, ledger: &[u8]) -> bool
    ensures { result ≡ Rules.rules (lent state.now ledger.now [] [] [] []) }
{
    let settings = state.settings;
    settings.within_limits()
        && settings.ledger_length() <= ledger.len()
        && state.end <= settings.capacity
        && state.entries as usize <= settings.entries()
        && state.slots.keeps_rules(settings.slots as usize, state.end)
        && judge::keeps_rules(
            ledger,
            settings,
            state.entries as usize,
            state.end,
            state.closed,
            state.slots.pages,
        )
}

// The other slices are long enough.
#[tactic(auto, unfolding(crate::specs::Rules::long_enough))]
pub fn long_enough(settings: Settings, files: &Files) -> bool
    requires { limits settings ≡ true }
    ensures { result ≡ Rules.long_enough settings (among files.now zero_state) }
{
    settings.base_length() <= files.base.len()
        && settings.side_length() <= files.side.len()
        && settings.buffer_length() <= files.buffer.len()
        && settings.capacity as usize <= files.kinds.len()
}

// The pages in slots are metadata. They are below e, and the kind table is longer. `whole` is told because a caller does not
// know the length of an array behind a reference.
fn slots_fit(pages: &[Page; 16], slots: usize, kinds: &[u8]) -> bool
    requires { (slots ≤ 16) × All (SeatBelow (length kinds.now)) (take slots pages.now) }
    ensures fits { result ≡ list_all (seat_fits kinds.now) (take slots pages.now) }
    ensures whole { length pages.now ≡ 16 }
{
    pages[..slots].iter().all(|page| *page == Slots::NO_PAGE
        || kinds[page.0 as usize] == Kind::Metadata as u8)
}

// Slots and entries are of metadata pages.
#[tactic(auto, using(crate::proofs::Judging::ruled_slots, crate::proofs::Judging::kinds_asked))]
fn kinds_kept(state: &State, ledger: &[u8], kinds: &[u8]) -> bool
    requires { (Rules.rules (lent state.now ledger.now [] [] [] []) ≡ true) × (state.now.settings.capacity ≤ length kinds.now) }
    ensures { result ≡ Rules.kind_rules (lent state.now ledger.now [] [] [] kinds.now) }
{
    slots_fit(&state.slots.pages, state.settings.slots as usize, kinds)
        && judge::kinds_fit(ledger, state.entries as usize, kinds)
}

// 3, 2 or 3.
#[tactic(auto, using(crate::proofs::Judging::stand_asked, crate::proofs::Judging::rules_limited, crate::proofs::Judging::long_kinds), unfolding(units::specs::Tests::verdict))]
pub fn stands(state: &State, files: &Files) -> Result<(), Refusal>
    ensures { Refusals.number result ≡ verdict (Rules.standing (among files.now state.now)) }
{
    if !keeps_rules(state, files.ledger) {
        return Err(Refusal::State);
    }
    if !long_enough(state.settings, files) {
        return Err(Refusal::Short);
    }
    if !kinds_kept(state, files.ledger, files.kinds) {
        return Err(Refusal::State);
    }
    Ok(())
}
