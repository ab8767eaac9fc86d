// The numbers of document 01 and their kinds: ticks, page numbers and image places, the settings with their limits and
// what follows from them, the ages of a close, the numbers of refusal.
// Ticks, pages and places are three counters; each is a struct of its own, so that none can be handed over for another.
// Only ticks have sums, and these are wide enough that nothing wraps at the largest tick.
#![tactic(auto)]

pub mod ages;
pub mod refusal;
pub mod sizes;

pub use refusal::Refusal;

#[repr(C)]
#[derive(Clone, Copy, Debug, PartialEq, Eq, PartialOrd, Ord)]
pub struct Tick(pub u32);

#[repr(C)]
#[derive(Clone, Copy, Debug, PartialEq, Eq, PartialOrd, Ord)]
pub struct Page(pub u32);

#[repr(C)]
#[derive(Clone, Copy, Debug, PartialEq, Eq, PartialOrd, Ord)]
pub struct Place(pub u32);

// P, S, L and E: bytes of a page, buffer slots, maximum lag in ticks, pages that the base can have.
#[repr(C)]
#[derive(Clone, Copy, Debug, PartialEq, Eq)]
pub struct Settings {
    pub size: u32,
    pub slots: u32,
    pub lag: u32,
    pub capacity: u32,
}
