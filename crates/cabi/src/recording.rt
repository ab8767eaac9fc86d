// The recorder's five calls (document 01, "What the recorder does"). Slices come in one order: ledger, base, side file, page
// buffer, kind table. The state goes in and comes out by value.
ghost use Rattle.std.specs.Prelude.{◌≡◌, []};
ghost use Rattle.recorder.specs.Calls as Calls;
ghost use Rattle.recorder.specs.Close.{close_reply};
ghost use Rattle.recorder.specs.Outcome.{lent, answered};
ghost use Rattle.recorder.specs.World.{zero_state};

use recorder::{Answer, State};
use units::{Page, Settings, Tick, refusal};

#[unsafe(no_mangle)]
pub extern "C" fn ungletice_recorder_open(
    settings: Settings,
    end: u32,
    tick: u32,
    ledger: &mut [u8],
    base: &[u8],
    side: &mut [u8],
    buffer: &[u8],
    kinds: &[u8],
) -> Answer
    ensures { answered result ledger.new base.now side.new buffer.now kinds.now [] ≡ Calls.open_reply settings end tick (lent zero_state ledger.old base.now side.old buffer.now kinds.now) }
{
    let opened = recorder::calls::open(
        settings,
        end,
        Tick(tick),
        ledger,
        base,
        side,
        buffer,
        kinds,
    );
    match opened {
        Ok(state) => Answer::accepted(state),
        Err(refusal) => Answer::refused(u32::from(refusal), State::zero()),
    }
}

#[unsafe(no_mangle)]
pub extern "C" fn ungletice_recorder_read(
    state: State,
    ledger: &[u8],
    base: &[u8],
    side: &[u8],
    buffer: &mut [u8],
    kinds: &[u8],
    page: u32,
    offset: u32,
    into: &mut [u8],
) -> Answer
    ensures { answered result ledger.now base.now side.now buffer.new kinds.now into.new ≡ Calls.read_reply page offset into.old (lent state ledger.now base.now side.now buffer.old kinds.now) }
{
    let mut state = state;
    let done = recorder::calls::read(
        &mut state,
        ledger,
        base,
        side,
        buffer,
        kinds,
        Page(page),
        offset,
        into,
    );
    Answer {
        number: refusal::number(done),
        state,
    }
}

#[unsafe(no_mangle)]
pub extern "C" fn ungletice_recorder_write(
    state: State,
    ledger: &[u8],
    base: &mut [u8],
    side: &[u8],
    buffer: &mut [u8],
    kinds: &[u8],
    page: u32,
    offset: u32,
    bytes: &[u8],
) -> Answer
    ensures { answered result ledger.now base.new side.now buffer.new kinds.now bytes.now ≡ Calls.write_reply page offset bytes.now (lent state ledger.now base.old side.now buffer.old kinds.now) }
{
    let mut state = state;
    let done = recorder::calls::write(
        &mut state,
        ledger,
        base,
        side,
        buffer,
        kinds,
        Page(page),
        offset,
        bytes,
    );
    Answer {
        number: refusal::number(done),
        state,
    }
}

#[unsafe(no_mangle)]
pub extern "C" fn ungletice_recorder_grow(
    state: State,
    ledger: &[u8],
    base: &mut [u8],
    side: &[u8],
    buffer: &mut [u8],
    kinds: &mut [u8],
    kind: u32,
) -> Answer
    ensures { answered result ledger.now base.new side.now buffer.new kinds.new [] ≡ Calls.grow_reply kind (lent state ledger.now base.old side.now buffer.old kinds.old) }
{
    let mut state = state;
    let done = recorder::calls::grow(&mut state, ledger, base, side, buffer, kinds, kind);
    Answer {
        number: refusal::number(done),
        state,
    }
}

#[unsafe(no_mangle)]
pub extern "C" fn ungletice_recorder_close(
    state: State,
    ledger: &mut [u8],
    base: &mut [u8],
    side: &mut [u8],
    buffer: &[u8],
    kinds: &[u8],
) -> Answer
    ensures { answered result ledger.new base.new side.new buffer.now kinds.now [] ≡ close_reply (lent state ledger.old base.old side.old buffer.now kinds.now) }
{
    let mut state = state;
    let done = recorder::close::close(&mut state, ledger, base, side, buffer, kinds);
    Answer {
        number: refusal::number(done),
        state,
    }
}
