// The side file's index, from the rows of the ledger: each begins with an entry of the index.
ghost use Rattle.std.specs.Prelude.{◌≡◌, true, map, ◌≤◌, ◌*◌, length};
ghost use Rattle.octets.specs.Part.{lay};
ghost use Rattle.units.specs.Sizes.{header_length, entry_row, limits, entries, index_end};
ghost use Rattle.sidefile.specs.Encode.{index_bytes};
ghost use Rattle.ledger.specs.View.{indexed, entries_in};

use units::Settings;

// The index of n entries, behind the header: X rows, those from n on zero.
#[tactic(auto, unfolding(units::specs::Sizes::index_end, octets::specs::Number::Octets), using(crate::proofs::Indexing::index_none, crate::proofs::Indexing::index_next, crate::proofs::Indexing::index_cleared))]
pub fn write_index(s: &[u8], settings: Settings, n: usize, side: &mut [u8])
    requires { (limits settings ≡ true) × (n ≤ entries settings) × (n * entry_row ≤ length s.now) × (index_end settings ≤ length side.old) }
    ensures { side.new ≡ lay side.old header_length (index_bytes settings (map indexed (entries_in n s.now))) }
{
    for i in 0..n {
        octets::copy(
            s,
            i * Settings::ENTRY_ROW,
            side,
            Settings::HEADER_LENGTH + i * Settings::INDEX_ROW,
            Settings::INDEX_ROW,
        );
    }
    let at = Settings::HEADER_LENGTH + n * Settings::INDEX_ROW;
    octets::clear(side, at, settings.index_end() - at);
}
