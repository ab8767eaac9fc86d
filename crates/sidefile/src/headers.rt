// The header of a side file or of a held buffer: read, and judged by the tests of 11 and those of 12 that concern it.
ghost use Rattle.std.specs.Prelude.{◌≡◌, true, ◌≤◌, length};
ghost use Rattle.units.specs.Sizes.{header_length, limits};
ghost use Rattle.units.specs.Tests.{passes};
ghost use Rattle.sidefile.specs.Encode.{header_of};
ghost use Rattle.sidefile.specs.Judge.{mark_tests, header_tests};
ghost use Rattle.sidefile.specs.inner.Passed.{asks};

use crate::{Header, layout};
use units::{Settings, Tick};

#[tactic(auto, unfolding(crate::specs::Encode::header_of))]
pub fn header_of(s: &[u8]) -> Header
    requires { header_length ≤ length s.now }
    ensures { result ≡ header_of s.now }
{
    Header {
        settings: Settings {
            size: octets::load32(s, layout::SIZE_AT),
            slots: octets::load16(s, layout::SLOTS_AT),
            lag: octets::load16(s, layout::LAG_AT),
            capacity: Settings::MOST_CAPACITY,
        },
        closed: Tick(octets::load32(s, layout::CLOSED_AT)),
        end: octets::load32(s, layout::END_AT),
        entries: octets::load32(s, layout::ENTRIES_AT),
    }
}

// The tests of 11.
#[tactic(auto, unfolding(crate::specs::Judge::mark_tests, units::specs::Tests::passes))]
pub fn well_marked(s: &[u8]) -> bool
    ensures { result ≡ passes (mark_tests s.now) }
{
    Settings::HEADER_LENGTH <= s.len()
        && s.starts_with(&layout::MARK)
        && octets::load16(s, layout::VERSION_AT) == layout::VERSION
}

// n bytes are enough: for a whole side file, or for a held buffer. A flag and no closure: there are these two lengths and no
// third, and the definition `asks` has the same flag.
fn long_enough(settings: Settings, n: usize, whole: bool) -> bool
    requires { limits settings ≡ true }
    ensures { result ≡ asks whole n settings }
{
    let least = if whole {
        settings.side_length()
    } else {
        settings.index_end()
    };
    least <= n
}

// The tests of 12 that concern the header, for a side file of n bytes (whole) or a held buffer of n bytes. A call of its own
// (`judge_header` says why).
#[tactic(auto, unfolding(crate::specs::Judge::header_tests, units::specs::Tests::passes, crate::specs::Encode::checksum))]
#[inline(never)]
pub fn header_passes(s: &[u8], n: usize, whole: bool) -> bool
    requires { header_length ≤ length s.now }
    ensures { result ≡ passes (header_tests (asks whole n) s.now) }
{
    let sum = lookup3::checksum(&s[..layout::HEADER_SUM_AT]);
    let header = header_of(s);
    let settings = header.settings;
    sum == octets::load32(s, layout::HEADER_SUM_AT)
        && settings.within_limits()
        && octets::load16(s, layout::ZERO_AT) == 0
        && long_enough(settings, n, whole)
        && header.end <= Settings::MOST_CAPACITY
        && header.entries as usize <= settings.entries()
}
