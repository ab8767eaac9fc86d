// What each call asks, in the order of document 01.
ghost use Rattle.std.specs.Prelude.{◌≡◌, [], ◌≤◌, ltb, length, get_or, IfOk};
ghost use Rattle.std.specs.List.{list_all};
ghost use Rattle.units.specs.Refusals as Refusals;
ghost use Rattle.units.specs.Tests.{verdict};
ghost use Rattle.recorder.specs.Calls as Calls;
ghost use Rattle.recorder.specs.Outcome.{lent};
ghost use Rattle.recorder.specs.inner.Kinds.{number_of};
ghost use Rattle.recorder.specs.inner.Tests.{access_tests, growth_tests, early_tests, among};
ghost use Rattle.recorder.specs.World.{zero_state};

use crate::kinds::Kind;
use crate::{Files, State, judge};
use units::{Page, Refusal, Settings};

// The kind bytes are those of kinds. By number, as the definition has it: open looks at up to 65,535 of them.
fn kinds_known(kinds: &[u8]) -> bool
    ensures { result ≡ list_all (λ k. ltb k 2) kinds.now }
{
    kinds.iter().all(|&byte| byte < 2)
}

// Open: 1, 2 or 5.
#[tactic(auto, using(crate::proofs::Passes::all_listed, crate::proofs::Judging::long_kinds), unfolding(crate::specs::Calls::open_tests, units::specs::Tests::verdict))]
pub fn opens(settings: Settings, end: u32, tick: u32, files: &Files) -> Result<(), Refusal>
    ensures { Refusals.number result ≡ verdict (Calls.open_tests settings end tick (among files.now zero_state)) }
{
    if !settings.within_limits() || settings.capacity < end {
        return Err(Refusal::Settings);
    }
    if !judge::long_enough(settings, files) || files.ledger.len() < settings.ledger_length() {
        return Err(Refusal::Short);
    }
    if !kinds_known(&files.kinds[..end as usize]) {
        return Err(Refusal::Kind);
    }
    Ok(())
}

// The page and the span of a read or write: 4, 5 or 6, else the page's kind. The kind table reaches up to e.
#[tactic(auto, unfolding(crate::specs::Calls::span_tests, units::specs::Tests::verdict))]
fn spans(state: &State, kinds: &[u8], page: Page, offset: u32, n: usize) -> Result<Kind, Refusal>
    requires { state.now.end ≤ length kinds.now }
    ensures number { Refusals.number result ≡ verdict (Calls.span_tests (lent state.now [] [] [] [] kinds.now) page.0 offset n) }
    ensures kind { IfOk result (λ kind. number_of kind ≡ get_or kinds.now page.0 0) }
{
    if state.end <= page.0 {
        return Err(Refusal::Page);
    }
    let kind = Kind::try_from(u32::from(kinds[page.0 as usize]))?;
    let size = state.settings.size;
    if n < 1 || size < offset || n > (size - offset) as usize {
        return Err(Refusal::Span);
    }
    Ok(kind)
}

// Read and write of n bytes, but for 7: 3, 2, 4, 5 or 6, else the page's kind.
#[tactic(auto, using(crate::proofs::Testing::stands_refused, crate::proofs::Testing::stands_behind, crate::proofs::Testing::stands_kinds), unfolding(crate::specs::Calls::span_tests))]
pub fn accesses(
    state: &State,
    files: &Files,
    page: Page,
    offset: u32,
    n: usize,
) -> Result<Kind, Refusal>
    ensures number { Refusals.number result ≡ verdict (access_tests (among files.now state.now) page.0 offset n) }
    ensures kind { IfOk result (λ kind. number_of kind ≡ get_or files.now.kinds.now page.0 0) }
{
    judge::stands(state, files)?;
    spans(state, files.kinds, page, offset, n)
}

// Grow, but for 7: 3, 2, 5 or 8, else the kind that is named.
#[tactic(auto, using(crate::proofs::Testing::stands_refused, crate::proofs::Testing::stands_behind), unfolding(crate::specs::Calls::grow_tests, units::specs::Tests::verdict))]
pub fn grows(state: &State, files: &Files, kind: u32) -> Result<Kind, Refusal>
    ensures number { Refusals.number result ≡ verdict (growth_tests (among files.now state.now) kind) }
    ensures kind { IfOk result (λ known. number_of known ≡ kind) }
{
    judge::stands(state, files)?;
    let known = Kind::try_from(kind)?;
    if state.settings.capacity <= state.end {
        return Err(Refusal::NoPage);
    }
    Ok(known)
}

// Close, but for 10: 3, 2 or 9.
#[tactic(auto, using(crate::proofs::Testing::stands_refused, crate::proofs::Testing::stands_behind), unfolding(crate::specs::inner::Tests::last_tick, crate::specs::Close::close_tests, units::specs::Tests::verdict))]
pub fn closes(state: &State, files: &Files) -> Result<(), Refusal>
    ensures { Refusals.number result ≡ verdict (early_tests (among files.now state.now)) }
{
    judge::stands(state, files)?;
    // By its number: with a comparison of two ticks the proof did not close.
    if state.closed.0 == u32::MAX {
        return Err(Refusal::LastTick);
    }
    Ok(())
}
