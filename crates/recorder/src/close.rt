// The close of a tick (document 01, "Close"). Nothing is written before it is sure to be accepted; then the stores are made in
// their order: images, base pages, index, header. The ledger, which no desk sees, is renewed along the way.
ghost use Rattle.std.specs.Prelude.{◌≡◌, []};
ghost use Rattle.recorder.specs.Close.{close_reply};
ghost use Rattle.recorder.specs.inner.Carried.{Closes, Carries, Carried, Ended};
ghost use Rattle.recorder.specs.inner.Handed.{handed, filed, seen};
ghost use Rattle.recorder.specs.Outcome.{lent, answer_with, answered};
ghost use Rattle.recorder.specs.World.{World};

use crate::plan::Plan;
use crate::{Files, State, front, stores, tests};
use ledger::renewal;
use units::{Refusal, Tick};

// The stores of a close that was planned, and its ledger. Answers how many entries there are then. The kinds play no part.
fn carry_out(
    state: &State,
    ledger: &mut [u8],
    base: &mut [u8],
    side: &mut [u8],
    buffer: &[u8],
    tick: Tick,
    plan: &Plan,
) -> u32
    requires { (w : World) × Carries (filed base.old side.old buffer.now (handed state.now.settings state.now.end state.now.entries state.now.slots.pages ledger.old w)) tick plan.now }
    ensures { (w : World) → Carries (filed base.old side.old buffer.now (handed state.now.settings state.now.end state.now.entries state.now.slots.pages ledger.old w)) tick plan.now → Carried (filed base.old side.old buffer.now (handed state.now.settings state.now.end state.now.entries state.now.slots.pages ledger.old w)) result ledger.new base.new side.new }
{
    let kept = renewal::settle(
        ledger,
        state.settings,
        state.entries as usize,
        &plan.going,
        tick,
    );
    let sums = stores::write_images(state, buffer, side, plan);
    let n = renewal::put_all(
        ledger,
        kept,
        &plan.pages,
        &plan.places,
        &sums,
        &plan.entered,
        plan.count,
        tick,
    );
    stores::write_due(state, ledger, n, buffer, base, tick);
    front::write_front(state, ledger, n, tick, side);
    n as u32
}

// A close whose tests before 10 have passed: planned, and carried out. Answers how many entries there are then. It has a frame of
// its own, so that its arrays are not on the stack while the state is judged.
#[inline(never)]
fn closing(
    state: &State,
    ledger: &mut [u8],
    base: &mut [u8],
    side: &mut [u8],
    buffer: &[u8],
    tick: Tick,
) -> Result<u32, Refusal>
    requires { (w : World) × Closes (filed base.old side.old buffer.now (seen state.now ledger.old w)) tick }
    ensures { (w : World) → Closes (filed base.old side.old buffer.now (seen state.now ledger.old w)) tick → Ended (filed base.old side.old buffer.now (seen state.now ledger.old w)) result ledger.new base.new side.new }
{
    let mut plan = Plan::empty();
    plan.fill(state, ledger, tick)?;
    Ok(carry_out(state, ledger, base, side, buffer, tick, &plan))
}

// The open tick is closed. 3, 2, 9, 10 or 0.
#[tactic(auto, using(crate::proofs::Ending::close_refused, crate::proofs::Ending::close_low))]
pub fn close(
    state: &mut State,
    ledger: &mut [u8],
    base: &mut [u8],
    side: &mut [u8],
    buffer: &[u8],
    kinds: &[u8],
) -> Result<(), Refusal>
    ensures { answered (answer_with result state.new) ledger.new base.new side.new buffer.now kinds.now [] ≡ close_reply (lent state.old ledger.old base.old side.old buffer.now kinds.now) }
{
    let files = Files {
        ledger,
        base,
        side,
        buffer,
        kinds,
    };
    tests::closes(state, &files)?;
    let tick = Tick(state.closed.0 + 1);
    let entries = closing(state, ledger, base, side, buffer, tick)?;
    state.closed = tick;
    state.entries = entries;
    state.slots = state.slots.unmark();
    Ok(())
}
