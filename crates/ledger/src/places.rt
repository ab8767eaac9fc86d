// Image places: which of them entries hold, which may be given at a close, and their rows after it. A table of flags says of
// each of the 272 places that any settings can have whether something holds of it.
ghost use Rattle.std.specs.Prelude.{◌≡◌, true, false, not, map, ◌≤◌, ◌<◌, ◌+◌, ◌*◌, length, take, replicate};
ghost use Rattle.lists.specs.Below.{below};
ghost use Rattle.lists.specs.Scans.{Every};
ghost use Rattle.octets.specs.inner.Flags.{flags};
ghost use Rattle.octets.specs.Part.{lay};
ghost use Rattle.octets.specs.Rows.{row, join};
ghost use Rattle.units.specs.Sizes as Sizes;
ghost use Rattle.units.specs.Sizes.{entry_row, place_row, limits, places_at, ledger_length};
ghost use Rattle.sidefile.specs.inner.Table.{column, places_fit};
ghost use Rattle.ledger.specs.Entries.{place_of};
ghost use Rattle.ledger.specs.inner.Flagged.{picked};
ghost use Rattle.ledger.specs.inner.Numbers.{place_numbers};
ghost use Rattle.ledger.specs.inner.Placed.{resting};
ghost use Rattle.ledger.specs.inner.Tables.{held_by, free_in, row_after, rows_after};
ghost use Rattle.ledger.specs.View.{indexed, entries_in};

use sidefile::layout;
use sidefile::rows::number;
use units::{Place, Settings, Tick};

// The place of entry i.
fn place_at(s: &[u8], i: usize) -> usize
    requires { i * entry_row + entry_row ≤ length s.now }
    ensures { result ≡ column 1 (row 0 entry_row i s.now) }
{
    number(s, 0, Settings::ENTRY_ROW, i, layout::PLACE) as usize
}

// The places of the entries in the marked rows.
#[tactic(auto, unfolding(crate::specs::inner::Flagged::picked), using(crate::proofs::Placing::none_held, crate::proofs::Placing::held_none, crate::proofs::Placing::held_marked, crate::proofs::Placing::held_unmarked, crate::specs::laws::Read::place_column, crate::specs::laws::Read::every_row, crate::specs::laws::Read::entries_whole))]
pub fn places_of(s: &[u8], n: usize, marked: &[u8]) -> [u8; Settings::PLACE_FLAGS]
    requires { (n * entry_row ≤ length s.now) × (n ≤ 8 * length marked.now) × Every (λ e. place_of e < 272) (entries_in n s.now) }
    ensures { flags result ≡ held_by (picked (flags marked.now) (entries_in n s.now)) }
{
    let mut held = [0u8; Settings::PLACE_FLAGS];
    for i in 0..n {
        if octets::flag(marked, i) {
            octets::raise(&mut held, place_at(s, i));
        }
    }
    held
}

// Each entry's place is below `most` and no two are one. The table, at first with no flag set, then says which places they
// are. sidefile's `places_apart` has the same loop over a table of its own: one function for both would promise of the flags what
// the judge of a side file has no words for, and is no plainer.
#[tactic(auto, using(crate::proofs::Flagging::place_room, crate::specs::laws::Read::entries_indexed, sidefile::proofs::Scans::fresh_far, sidefile::proofs::Scans::fresh_met, sidefile::proofs::Scans::fresh_next, sidefile::proofs::Scans::fresh_end, crate::proofs::Placing::held_none, crate::proofs::Placing::held_next, crate::specs::laws::Read::place_column, crate::specs::laws::Read::entries_whole))]
pub fn held_places(s: &[u8], n: usize, most: usize, held: &mut [u8]) -> bool
    requires { (n * entry_row ≤ length s.now) × (most ≤ 272) × (flags held.old ≡ replicate 272 false) }
    ensures { (result ≡ places_fit most (map indexed (entries_in n s.now))) × (result ≡ true → flags held.new ≡ held_by (entries_in n s.now)) }
{
    for i in 0..n {
        let place = place_at(s, i);
        if most <= place || octets::flag(held, place) {
            return false;
        }
        octets::raise(held, place);
    }
    true
}

// The place is not retired, or has been for long enough at the close of `tick`.
#[tactic(auto, unfolding(units::specs::Sizes::ledger_length, sidefile::specs::inner::Table::column, crate::specs::View::place_row_at, crate::specs::View::retired, crate::specs::View::retired_at))]
fn rested(s: &[u8], settings: Settings, q: usize, tick: Tick) -> bool
    requires { (limits settings ≡ true) × (ledger_length settings ≤ length s.now) × (q < Sizes.places settings) }
    ensures { result ≡ not (resting settings (Sizes.wait settings) tick s.now q) }
{
    let at = settings.places_at();
    number(s, at, Settings::PLACE_ROW, q, 0) == 0
        || Tick(number(s, at, Settings::PLACE_ROW, q, 1)).reusable(settings.wait(), tick)
}

// The lowest places that may be given at the close of `tick`: as many as wanted, or all that there are. Answers how many.
#[tactic(auto, unfolding(units::specs::Sizes::ledger_length, units::specs::Sizes::places_at, crate::specs::inner::Tables::free_in), using(crate::proofs::Placing::none_held, crate::proofs::Giving::found_none, crate::proofs::Giving::found_skip, crate::proofs::Giving::found_take, crate::proofs::Giving::found_all, crate::proofs::Giving::found_last, crate::proofs::Giving::found_count, crate::proofs::Giving::gives_yes, crate::proofs::Giving::gives_rests, crate::proofs::Giving::gives_held))]
pub fn free_places(
    s: &[u8],
    settings: Settings,
    n: usize,
    tick: Tick,
    wanted: usize,
    places: &mut [Place; 16],
) -> usize
    requires { (limits settings ≡ true) × (ledger_length settings ≤ length s.now) × (n ≤ Sizes.entries settings) × (places_fit (Sizes.places settings) (map indexed (entries_in n s.now)) ≡ true) × (wanted ≤ 16) }
    ensures { (result ≡ length (take wanted (free_in settings n tick s.now))) × (place_numbers result places.new ≡ take wanted (free_in settings n tick s.now)) × (length places.new ≡ 16) }
{
    let m = settings.places();
    let mut taken = [0u8; Settings::PLACE_FLAGS];
    held_places(s, n, m, &mut taken);
    let mut count: usize = 0;
    for q in 0..m {
        if count == wanted {
            break;
        }
        if !octets::flag(&taken, q) && rested(s, settings, q, tick) {
            places[count] = Place(q as u32);
            count += 1;
        }
    }
    count
}

// The row of a place after the close of `tick`, which may retire it: a fact about the place, as in the definition `row_after`.
#[tactic(auto, unfolding(units::specs::Sizes::ledger_length, crate::specs::inner::Tables::row_after, crate::specs::View::place_row_at, octets::specs::Rows::row), using(crate::proofs::Placing::after_retired, octets::specs::laws::Part::lay_part))]
fn place_after(s: &mut [u8], settings: Settings, q: usize, retires: bool, tick: Tick)
    requires { (limits settings ≡ true) × (ledger_length settings ≤ length s.old) × (q < Sizes.places settings) }
    ensures { s.new ≡ lay s.old (places_at settings + q * place_row) (row_after settings (Sizes.wait settings) tick «retires» s.old q) }
{
    let at = settings.places_at() + q * Settings::PLACE_ROW;
    if retires {
        octets::store32(s, at, 1);
        octets::store32(s, at + 4, tick.0);
    } else if rested(s, settings, q, tick) {
        octets::clear(s, at, Settings::PLACE_ROW);
    }
}

// The rows of all places after the close of `tick`; the table says which it retires.
#[tactic(auto, unfolding(crate::proofs::Placing::after_up_to), using(crate::proofs::Placing::after_start, crate::proofs::Placing::after_next))]
pub fn places_after(s: &mut [u8], settings: Settings, retiring: &[u8], tick: Tick)
    requires { (limits settings ≡ true) × (ledger_length settings ≤ length s.old) × (Sizes.places settings ≤ 8 * length retiring.now) }
    ensures { s.new ≡ lay s.old (places_at settings) (join (map (rows_after settings tick (flags retiring.now) s.old) (below (Sizes.places settings)))) }
{
    for q in 0..settings.places() {
        place_after(s, settings, q, octets::flag(retiring, q), tick);
    }
}
