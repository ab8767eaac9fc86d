// The front of the side file at a close: index, then header, so that no header stands before its index does.
ghost use Rattle.std.specs.Prelude.{◌≡◌, true, map, ◌≤◌, ◌*◌, length};
ghost use Rattle.octets.specs.Part.{lay};
ghost use Rattle.units.specs.Sizes.{header_length, entry_row, limits, entries, index_end};
ghost use Rattle.sidefile.specs.Encode.{header_for, index_bytes};
ghost use Rattle.ledger.specs.View.{indexed, entries_in};

use crate::State;
use ledger::index;
use sidefile::encode;
use units::Tick;

// Index and header of n entries.
#[tactic(auto, unfolding(units::specs::Sizes::index_end), using(units::specs::laws::Bounds::limits_within, units::specs::laws::Bounds::entries_most, octets::specs::laws::Part::length_lay))]
pub fn write_front(state: &State, ledger: &[u8], n: usize, tick: Tick, side: &mut [u8])
    requires { (limits state.now.settings ≡ true) × (n ≤ entries state.now.settings) × (n * entry_row ≤ length ledger.now) × (index_end state.now.settings ≤ length side.old) }
    ensures { side.new ≡ lay (lay side.old header_length (index_bytes state.now.settings (map indexed (entries_in n ledger.now)))) 0 (header_for state.now.settings tick state.now.end (map indexed (entries_in n ledger.now))) }
{
    index::write_index(ledger, state.settings, n, side);
    encode::seal(side, state.settings, tick, state.end, n as u32);
}
