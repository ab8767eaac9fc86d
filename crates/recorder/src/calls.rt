// Open, read, write and grow. They take anything: every number, slice and state is judged before it is used. A refusal comes
// before anything is written, the state that a call is lent included.
ghost use Rattle.std.specs.Prelude.{◌≡◌, []};
ghost use Rattle.recorder.specs.Calls as Calls;
ghost use Rattle.recorder.specs.Outcome.{lent, answer, answer_with, answered};
ghost use Rattle.recorder.specs.World.{zero_state};

use crate::kinds::Kind;
use crate::{Answer, Files, State, buffer, spans, tests};
use sidefile::encode;
use units::{Page, Refusal, Settings, Tick};

impl Answer {
    // The call is done, and this is the state from now on.
    pub fn accepted(state: State) -> Answer
        ensures { result ≡ record { number = 0; state = state } }
    {
        Answer { number: 0, state }
    }

    // The call is refused, and this is the state that was given. Any number, as it promised before there was a `Refusal`.
    pub fn refused(number: u32, state: State) -> Answer
        ensures { result ≡ record { number = number; state = state } }
    {
        Answer { number, state }
    }
}

// The slices of a call come apart and in C's order: which of them it may write differs from call to call.

// Tick `tick` is closed, the index empty, the slots empty, the counts zero. 1, 2, 5 or done.
pub fn open(
    settings: Settings,
    end: u32,
    tick: Tick,
    ledger: &mut [u8],
    base: &[u8],
    side: &mut [u8],
    buffer: &[u8],
    kinds: &[u8],
) -> Result<State, Refusal>
    ensures { answered (answer zero_state result) ledger.new base.now side.new buffer.now kinds.now [] ≡ Calls.open_reply settings end tick.0 (lent zero_state ledger.old base.now side.old buffer.now kinds.now) }
{
    let files = Files {
        ledger,
        base,
        side,
        buffer,
        kinds,
    };
    tests::opens(settings, end, tick.0, &files)?;
    octets::clear(ledger, 0, settings.ledger_length());
    encode::write_empty(side, settings, tick, end);
    Ok(State::first(settings, end, tick))
}

// The bytes of a page at an offset, as many as `into` has room for. 3, 2, 4, 5, 6 or done.
pub fn read(
    state: &mut State,
    ledger: &[u8],
    base: &[u8],
    side: &[u8],
    buffer: &mut [u8],
    kinds: &[u8],
    page: Page,
    offset: u32,
    into: &mut [u8],
) -> Result<(), Refusal>
    ensures { answered (answer_with result state.new) ledger.now base.now side.now buffer.new kinds.now into.new ≡ Calls.read_reply page.0 offset into.old (lent state.old ledger.now base.now side.now buffer.old kinds.now) }
{
    let files = Files {
        ledger,
        base,
        side,
        buffer,
        kinds,
    };
    let kind = tests::accesses(state, &files, page, offset, into.len())?;
    let size = state.settings.size;
    let k = page.0 as usize;
    if kind == Kind::Raw {
        spans::read_span(base, k, size, offset, into);
        state.raw_bypass();
        return Ok(());
    }
    let Some(used) = buffer::slot_for(state, ledger, page) else {
        spans::read_span(base, k, size, offset, into);
        state.meta_bypass();
        return Ok(());
    };
    buffer::bring(used, base, k, buffer, size);
    spans::read_span(buffer, used.slot(), size, offset, into);
    state.used(used, page);
    Ok(())
}

// The bytes laid over a page at an offset. 3, 2, 4, 5, 6, 7 or done.
pub fn write(
    state: &mut State,
    ledger: &[u8],
    base: &mut [u8],
    side: &[u8],
    buffer: &mut [u8],
    kinds: &[u8],
    page: Page,
    offset: u32,
    bytes: &[u8],
) -> Result<(), Refusal>
    ensures { answered (answer_with result state.new) ledger.now base.new side.now buffer.new kinds.now bytes.now ≡ Calls.write_reply page.0 offset bytes.now (lent state.old ledger.now base.old side.now buffer.old kinds.now) }
{
    let files = Files {
        ledger,
        base,
        side,
        buffer,
        kinds,
    };
    let kind = tests::accesses(state, &files, page, offset, bytes.len())?;
    let size = state.settings.size;
    let k = page.0 as usize;
    if kind == Kind::Raw {
        spans::write_span(bytes, base, k, size, offset);
        state.raw_bypass();
        return Ok(());
    }
    let used = buffer::slot_for(state, ledger, page).ok_or(Refusal::NoSlot)?;
    let slot = used.slot();
    buffer::bring(used, base, k, buffer, size);
    spans::write_span(bytes, buffer, slot, size, offset);
    state.used(used, page);
    state.changed(slot);
    Ok(())
}

// One zero page more, of the named kind. 3, 2, 5, 8, 7 or done.
pub fn grow(
    state: &mut State,
    ledger: &[u8],
    base: &mut [u8],
    side: &[u8],
    buffer: &mut [u8],
    kinds: &mut [u8],
    kind: u32,
) -> Result<(), Refusal>
    ensures { answered (answer_with result state.new) ledger.now base.new side.now buffer.new kinds.new [] ≡ Calls.grow_reply kind (lent state.old ledger.now base.old side.now buffer.old kinds.old) }
{
    let files = Files {
        ledger,
        base,
        side,
        buffer,
        kinds,
    };
    let kind = tests::grows(state, &files, kind)?;
    let size = state.settings.size;
    let k = state.end as usize;
    if kind == Kind::Raw {
        spans::clear_page(base, k, size);
        kinds[k] = Kind::Raw as u8;
        state.grown();
        return Ok(());
    }
    let seat = buffer::seat_for(state, ledger).ok_or(Refusal::NoSlot)?;
    spans::clear_page(buffer, seat.slot, size);
    kinds[k] = Kind::Metadata as u8;
    state.seated(seat);
    Ok(())
}
