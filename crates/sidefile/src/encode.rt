// The header written. The recorder lays the whole index and then seals it: the header comes last, with the checksum of the
// rows that stand. The index without entries is laid here.
ghost use Rattle.std.specs.Prelude.{◌≡◌, true, [], ◌++◌, ◌+◌, ◌*◌, ◌≤◌, length};
ghost use Rattle.octets.specs.Part.{lay};
ghost use Rattle.units.specs.Sizes.{header_length, index_row, limits, index_end};
ghost use Rattle.sidefile.specs.Encode.{header_bytes, header_for, index_bytes};
ghost use Rattle.sidefile.specs.inner.Sealed.{first_bytes, second_bytes, sealed};

use crate::{Header, layout};
use units::{Settings, Tick};

// Bytes 0 to 15.
fn write_first(s: &mut [u8], header: Header)
    requires { 16 ≤ length s.old }
    ensures { s.new ≡ lay s.old 0 (first_bytes header) }
{
    octets::copy(&layout::MARK, 0, s, 0, 4);
    octets::store16(s, layout::VERSION_AT, layout::VERSION);
    octets::store16(s, layout::LAG_AT, header.settings.lag);
    octets::store32(s, layout::SIZE_AT, header.settings.size);
    octets::store32(s, layout::CLOSED_AT, header.closed.0);
}

// Bytes 16 to 31.
fn write_second(s: &mut [u8], header: Header, sum: u32)
    requires { 32 ≤ length s.old }
    ensures { s.new ≡ lay s.old 16 (second_bytes header sum) }
{
    octets::store32(s, layout::END_AT, header.end);
    octets::store32(s, layout::ENTRIES_AT, header.entries);
    octets::store16(s, layout::SLOTS_AT, header.settings.slots);
    octets::store16(s, layout::ZERO_AT, 0);
    octets::store32(s, layout::INDEX_SUM_AT, sum);
}

// `sum` is the checksum of the entries' rows.
#[tactic(auto, unfolding(crate::specs::Encode::checksum), using(crate::proofs::Laying::headed))]
pub fn write_header(s: &mut [u8], header: Header, sum: u32)
    requires { header_length ≤ length s.old }
    ensures { s.new ≡ lay s.old 0 (header_bytes header sum) }
{
    write_first(s, header);
    write_second(s, header, sum);
    let own = lookup3::checksum(&s[..layout::HEADER_SUM_AT]);
    octets::store32(s, layout::HEADER_SUM_AT, own);
}

// The header of an index whose first n rows stand.
#[tactic(auto, unfolding(crate::specs::inner::Sealed::sealed, octets::specs::Part::part, crate::specs::Encode::checksum))]
pub fn seal(s: &mut [u8], settings: Settings, closed: Tick, end: u32, n: u32)
    requires { header_length + index_row * n ≤ length s.old }
    ensures { s.new ≡ sealed settings closed end n s.old }
{
    let from = Settings::HEADER_LENGTH;
    let to = from + Settings::INDEX_ROW * n as usize;
    let sum = lookup3::checksum(&s[from..to]);
    let header = Header {
        settings,
        closed,
        end,
        entries: n,
    };
    write_header(s, header, sum);
}

// The header and an index without entries.
#[tactic(auto, unfolding(units::specs::Sizes::index_end), using(octets::specs::laws::Part::length_lay, crate::specs::inner::Sealed::sealed_empty))]
pub fn write_empty(s: &mut [u8], settings: Settings, closed: Tick, end: u32)
    requires { (limits settings ≡ true) × (index_end settings ≤ length s.old) }
    ensures { s.new ≡ lay s.old 0 (header_for settings closed end [] ++ index_bytes settings []) }
{
    octets::clear(
        s,
        Settings::HEADER_LENGTH,
        Settings::INDEX_ROW * settings.entries(),
    );
    seal(s, settings, closed, end, 0);
}
