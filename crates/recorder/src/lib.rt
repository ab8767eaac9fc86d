// The recorder (document 01, "What the recorder does"): its state, and the five calls. The state is this struct and
// the lent ledger; base, side file, page buffer and kind table are lent to each call. A slice that a call does not write is
// lent to it for reading only. Open answers a state; the other calls change one that they are lent.
#![tactic(auto)]

pub mod buffer;
pub mod calls;
pub mod close;
pub mod counting;
pub mod front;
pub mod judge;
pub mod kinds;
pub mod plan;
pub mod spans;
pub mod states;
pub mod stores;
pub mod tests;

use slots::Slots;
use units::{Settings, Tick};

// In the order of HDF5's page buffering statistics. Each stops at 4,294,967,295.
#[repr(C)]
#[derive(Clone, Copy)]
pub struct Counts {
    pub accesses: u32,
    pub hits: u32,
    pub misses: u32,
    pub evictions: u32,
    pub bypasses: u32,
}

// `end` is e, the pages in the file now; `entries` says how many rows of the ledger are entries.
#[repr(C)]
#[derive(Clone, Copy)]
pub struct State {
    pub settings: Settings,
    pub end: u32,
    pub closed: Tick,
    pub entries: u32,
    pub slots: Slots,
    pub meta: Counts,
    pub raw: Counts,
}

// The five lent slices, looked at together before a call writes to any.
#[derive(Clone, Copy)]
pub struct Files<'a> {
    pub ledger: &'a [u8],
    pub base: &'a [u8],
    pub side: &'a [u8],
    pub buffer: &'a [u8],
    pub kinds: &'a [u8],
}

// What C is answered: a number of refusal and the state as it was given, or 0 and the state from now on.
#[repr(C)]
#[derive(Clone, Copy)]
pub struct Answer {
    pub number: u32,
    pub state: State,
}
