// The judge of the state rules that speak of the ledger. Every call of the recorder runs it, so each rule is one pass over
// the entries or over the places, and nothing is looked up but the slots of owed pages.
ghost use Rattle.std.specs.Prelude.{◌≡◌, true, false, ◌≤◌, ◌<◌, ◌+◌, ◌*◌, eqb, length, get_or};
ghost use Rattle.lists.specs.Below.{below};
ghost use Rattle.lists.specs.Scans.{Every, all_of};
ghost use Rattle.octets.specs.inner.Flags.{flags};
ghost use Rattle.units.specs.Sizes as Sizes;
ghost use Rattle.units.specs.Sizes.{entry_row, limits, ledger_length};
ghost use Rattle.ledger.specs.Entries.{page_of};
ghost use Rattle.ledger.specs.inner.Fits as Fits;
ghost use Rattle.ledger.specs.inner.Fits.{ticks_fit, place_fits};
ghost use Rattle.ledger.specs.Rules.{ledger_rules};
ghost use Rattle.ledger.specs.View.{entries_in};

use crate::{Entry, places, rows};
use sidefile::rows::number;
use sidefile::{Table, layout};
use units::{Page, Settings, Tick};

// The page is in one of the first `slots` seats. No early return: the compiler then compares several at once.
#[tactic(auto, unfolding(crate::specs::inner::Fits::sits, lists::specs::Below::from, lists::specs::Scans::any_of))]
fn sits(seats: &[Page; 16], slots: usize, page: Page) -> bool
    requires { slots ≤ 16 }
    ensures { result ≡ Fits.sits slots seats.now page.0 }
{
    let mut found = false;
    for seat in &seats[..slots] {
        found |= *seat == page;
    }
    found
}

// Entry tick, last change and the closed tick are in this order, and an owed page has a seat.
#[tactic(auto, unfolding(crate::specs::inner::Fits::ticks_fit, crate::specs::Entries::is_owed))]
fn entry_fits(e: Entry, wait: u32, closed: Tick, seats: &[Page; 16], slots: usize) -> bool
    requires { slots ≤ 16 }
    ensures { result ≡ ticks_fit wait closed (Fits.sits slots seats.now) e }
{
    e.entered <= e.changed
        && e.changed <= closed
        && (!e.entered.owed(wait, closed) || sits(seats, slots, e.page))
}

// Each of the first n entries fits so.
fn ticks_fit(s: &[u8], n: usize, wait: u32, closed: Tick, seats: &[Page; 16], slots: usize) -> bool
    requires { (n * entry_row ≤ length s.now) × (slots ≤ 16) }
    ensures { result ≡ all_of (ticks_fit wait closed (Fits.sits slots seats.now)) (entries_in n s.now) }
{
    (0..n).all(|i| entry_fits(rows::entry_at(s, i), wait, closed, seats, slots))
}

// A place that is retired was so by the closed tick, and no entry holds it.
#[tactic(auto, unfolding(units::specs::Sizes::ledger_length, sidefile::specs::inner::Table::column, crate::specs::View::place_row_at, crate::specs::View::retired, crate::specs::View::retired_at, crate::specs::inner::Fits::place_fits))]
fn place_fits(s: &[u8], settings: Settings, q: usize, held: bool, closed: Tick) -> bool
    requires { (limits settings ≡ true) × (ledger_length settings ≤ length s.now) × (q < Sizes.places settings) }
    ensures { result ≡ place_fits settings closed s.now held q }
{
    let at = settings.places_at();
    number(s, at, Settings::PLACE_ROW, q, 0) == 0
        || number(s, at, Settings::PLACE_ROW, q, 1) <= closed.0 && !held
}

// Each place fits so; the flags say which of them entries hold.
fn places_fit(s: &[u8], settings: Settings, held: &[u8], closed: Tick) -> bool
    requires { (limits settings ≡ true) × (ledger_length settings ≤ length s.now) × (Sizes.places settings ≤ 8 * length held.now) }
    ensures { result ≡ all_of (λ q. place_fits settings closed s.now (get_or (flags held.now) q false) q) (below (Sizes.places settings)) }
{
    (0..settings.places()).all(|q| place_fits(s, settings, q, octets::flag(held, q), closed))
}

// The first n entries and all places keep the rules. The seats are the pages in the slots.
#[tactic(auto, unfolding(units::specs::Sizes::ledger_length, units::specs::Sizes::places_at), using(crate::proofs::Judging::slots_low, crate::proofs::Placing::none_held, crate::specs::laws::Read::entries_indexed, crate::proofs::Judging::judge_pages, crate::proofs::Judging::judge_ticks, crate::proofs::Judging::judge_places))]
pub fn keeps_rules(
    s: &[u8],
    settings: Settings,
    n: usize,
    end: u32,
    closed: Tick,
    seats: [Page; 16],
) -> bool
    requires { (limits settings ≡ true) × (ledger_length settings ≤ length s.now) × (n ≤ Sizes.entries settings) }
    ensures { result ≡ ledger_rules settings end closed (Fits.sits settings.slots seats) n s.now }
{
    let entries = Table {
        bytes: s,
        at: 0,
        width: Settings::ENTRY_ROW,
        rows: n,
    };
    let mut held = [0u8; Settings::PLACE_FLAGS];
    entries.ascending_below(end)
        && ticks_fit(
            s,
            n,
            settings.wait(),
            closed,
            &seats,
            settings.slots as usize,
        )
        && places::held_places(s, n, settings.places(), &mut held)
        && places_fit(s, settings, &held, closed)
}

// The entries are of metadata pages, whose kind is 0: recorder's `Kind` stands above this crate. Their pages are below e, and the
// kind table is longer.
pub fn kinds_fit(s: &[u8], n: usize, kinds: &[u8]) -> bool
    requires { (n * entry_row ≤ length s.now) × Every (λ e. page_of e < length kinds.now) (entries_in n s.now) }
    ensures { result ≡ all_of (λ e. eqb (get_or kinds.now (page_of e) 0) 0) (entries_in n s.now) }
{
    (0..n).all(|i| kinds[number(s, 0, Settings::ENTRY_ROW, i, layout::PAGE) as usize] == 0)
}
