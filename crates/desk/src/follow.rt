// What refresh and read ask alike: 3 of the held buffer, and 12 and 13 of a side file's header beside it. Between the two a
// refresh judges the whole side file, a read only its header and length.
ghost use Rattle.std.specs.Prelude.{◌≡◌, ◌≤◌, length};
ghost use Rattle.units.specs.Refusals as Refusals;
ghost use Rattle.units.specs.Sizes.{header_length};
ghost use Rattle.units.specs.Tests.{verdict};
ghost use Rattle.sidefile.specs.Encode.{header_of};
ghost use Rattle.desk.specs.Take.{within_lag};
ghost use Rattle.desk.specs.inner.Follow.{kept_tests, pair_tests};

use sidefile::{Header, headers, judge};
use units::Refusal;

// 3: the held buffer breaks its rules.
#[tactic(auto, unfolding(crate::specs::inner::Follow::kept_tests, units::specs::Tests::verdict))]
pub fn kept(held: &[u8]) -> Result<(), Refusal>
    ensures { Refusals.number result ≡ verdict (kept_tests held.now) }
{
    if judge::held_passes(held) {
        Ok(())
    } else {
        Err(Refusal::State)
    }
}

#[tactic(auto, unfolding(crate::specs::Take::within_lag))]
fn within_lag(held: Header, side: Header) -> bool
    ensures { result ≡ within_lag held side }
{
    held.closed <= side.closed && u64::from(side.closed.0) <= held.closed.plus(held.settings.lag)
}

// 12 or 13: the side file has other settings than those held, or a tick below the held one or too far above it.
#[tactic(auto, unfolding(crate::specs::inner::Follow::pair_tests, crate::specs::Take::same_settings, sidefile::specs::Encode::header_of, units::specs::Tests::verdict))]
pub fn paired(held: &[u8], side: &[u8]) -> Result<(), Refusal>
    requires { (header_length ≤ length held.now) × (header_length ≤ length side.now) }
    ensures { Refusals.number result ≡ verdict (pair_tests (header_of held.now) (header_of side.now)) }
{
    let old = headers::header_of(held);
    let new = headers::header_of(side);
    if old.settings != new.settings {
        return Err(Refusal::Damaged);
    }
    if !within_lag(old, new) {
        return Err(Refusal::Lag);
    }
    Ok(())
}
