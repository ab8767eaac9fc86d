// The rows whose entries give up their places at a close, and the entry ticks that its changed pages keep. The changed pages
// are the first k of an array. The caller lends the flags of the rows and the array of ticks, so that a close has one of each
// on its stack.
ghost use Rattle.std.specs.Prelude.{◌≡◌, true, false, map, ◌≤◌, ◌<◌, ◌+◌, ◌*◌, length, take, replicate};
ghost use Rattle.octets.specs.inner.Flags.{flags};
ghost use Rattle.units.specs.Sizes.{entry_row};
ghost use Rattle.units.specs.inner.Pages.{numbers_of};
ghost use Rattle.sidefile.specs.Judge.{ascending};
ghost use Rattle.ledger.specs.Entries.{retires};
ghost use Rattle.ledger.specs.View.{indexed, entries_in};
ghost use Rattle.ledger.specs.inner.Changed.{among, is_old, entry_ticks};

use crate::rows;
use crate::search::Entries;
use units::{Page, Tick};

// Flags the rows that leave unless their page is changed. No flag is set at first.
#[tactic(auto, unfolding(crate::specs::inner::Changed::is_old), using(crate::proofs::Flagging::row_room, crate::proofs::Flagging::flagged_none, crate::proofs::Flagging::flagged_yes, crate::proofs::Flagging::flagged_no, crate::proofs::Flagging::flagged_all))]
fn old_rows(s: &[u8], n: usize, wait: u32, tick: Tick, old: &mut [u8])
    requires { (n * entry_row ≤ length s.now) × (n ≤ 144) × (flags old.old ≡ replicate 144 false) }
    ensures { take n (flags old.new) ≡ map (is_old wait tick) (entries_in n s.now) }
{
    for i in 0..n {
        if rows::entry_at(s, i).changed.leaves(wait, false, tick) {
            octets::raise(old, i);
        }
    }
}

// Flags the rows by their number, where no flag is set at first. Gives the entry tick of each changed page: that of its entry,
// or that of the close.
#[tactic(auto, unfolding(crate::specs::inner::Changed::entry_ticks), using(crate::proofs::Flagging::row_room, crate::specs::inner::Search::found_row, crate::proofs::Flagging::goes_none))]
pub fn retiring_rows(
    s: &[u8],
    n: usize,
    pages: &[Page; 16],
    k: usize,
    wait: u32,
    tick: Tick,
    going: &mut [u8],
    entered: &mut [Tick; 16],
)
    requires { (n * entry_row ≤ length s.now) × (n ≤ 144) × (k ≤ 16) × (ascending 0 (map indexed (entries_in n s.now)) ≡ true) × (flags going.old ≡ replicate 144 false) }
    ensures { (take n (flags going.new) ≡ map (retires wait tick (among (numbers_of k pages.now))) (entries_in n s.now)) × (take k entered.new ≡ entry_ticks tick (entries_in n s.now) (numbers_of k pages.now)) × (length entered.new ≡ 16) }
{
    old_rows(s, n, wait, tick, going);
    let entries = Entries { rows: s, count: n };
    for j in 0..k {
        entered[j] = match entries.find(pages[j]) {
            Some(i) => {
                octets::raise(going, i);
                entries.at(i).entered
            }
            None => tick,
        };
    }
}
