// The judge of refusals 11 and 12, at its three extents: a whole side file, its header and length, a held buffer.
ghost use Rattle.std.specs.Prelude.{◌≡◌, ◌++◌, ◌≤◌, min, length};
ghost use Rattle.units.specs.Refusals as Refusals;
ghost use Rattle.units.specs.Tests.{passes, verdict};
ghost use Rattle.sidefile.specs.Judge.{mark_tests, header_tests, index_tests, whole_tests, front_tests, held_tests};
ghost use Rattle.sidefile.specs.inner.Passed.{asks, most_front, Indexed};

use crate::{Table, headers, layout, rows};
use units::{Refusal, Settings};

// The tests of 12 that concern the index.
#[tactic(auto, unfolding(units::specs::Sizes::index_end))]
pub fn index_passes(s: &[u8]) -> bool
    requires { Indexed s.now }
    ensures { result ≡ passes (index_tests s.now) }
{
    let header = headers::header_of(s);
    let settings = header.settings;
    let n = header.entries as usize;
    let from = Settings::HEADER_LENGTH;
    let end = from + Settings::INDEX_ROW * n;
    let index = Table::index(s, n);
    index.ascending_below(header.end)
        && index.places_apart(settings.places())
        && index.changes_by(header.closed)
        && rows::zeros(s, end, Settings::INDEX_ROW * (settings.entries() - n))
        && lookup3::checksum(&s[from..end]) == octets::load32(s, layout::INDEX_SUM_AT)
}

// A side file of n bytes, of which at least header and index are at hand: refused by 11 or 12, or not.
#[tactic(auto, using(crate::proofs::Verdicts::whole_refused, crate::proofs::Verdicts::front_indexed, crate::proofs::Verdicts::whole_behind, crate::specs::inner::Passed::index_refused, units::specs::laws::Tests::verdict_passes))]
pub fn judge_whole(s: &[u8], n: usize) -> Result<(), Refusal>
    requires { min n most_front ≤ length s.now }
    ensures { Refusals.number result ≡ verdict (whole_tests n s.now) }
{
    judge_front(s, n)?;
    if !index_passes(s) {
        return Err(Refusal::Damaged);
    }
    Ok(())
}

// The header, and the length n: of a side file (whole), or of a held buffer. Refused by 11 or 12, or not. Inlined, and
// `header_passes` not, so that a front with another mark costs its callers the tests of the mark alone.
#[tactic(auto, using(crate::specs::inner::Passed::mark_length, crate::specs::inner::Passed::mark_refused, crate::specs::inner::Passed::header_refused, units::specs::laws::Tests::verdict_before, units::specs::laws::Tests::verdict_behind, units::specs::laws::Tests::verdict_passes))]
#[inline(always)]
pub fn judge_header(s: &[u8], n: usize, whole: bool) -> Result<(), Refusal>
    ensures { Refusals.number result ≡ verdict (mark_tests s.now ++ header_tests (asks whole n) s.now) }
{
    if !headers::well_marked(s) {
        return Err(Refusal::Foreign);
    }
    if !headers::header_passes(s, n, whole) {
        return Err(Refusal::Damaged);
    }
    Ok(())
}

// Header and length of a side file of n bytes.
#[tactic(auto, unfolding(crate::specs::Judge::front_tests))]
pub fn judge_front(s: &[u8], n: usize) -> Result<(), Refusal>
    ensures { Refusals.number result ≡ verdict (front_tests n s.now) }
{
    judge_header(s, n, true)
}

// A held buffer.
#[tactic(auto, unfolding(crate::specs::Judge::held_tests), using(units::specs::laws::Tests::passes_and, crate::specs::inner::Passed::mark_length, crate::specs::inner::Passed::indexed_held))]
pub fn held_passes(s: &[u8]) -> bool
    ensures { result ≡ passes (held_tests s.now) }
{
    headers::well_marked(s) && headers::header_passes(s, s.len(), false) && index_passes(s)
}
