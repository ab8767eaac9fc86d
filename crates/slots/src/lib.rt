// The slot table of the page buffer (document 01, "Slots"): which page each slot has, which are changed, and the order of
// use. By value: some 150 bytes.
#![tactic(auto)]

pub mod changes;
pub mod judge;
pub mod lookup;
pub mod moves;
pub mod seats;

pub use seats::Seat;
use units::Page;

// An empty slot has the page number 4,294,967,295. A flag is set if it is not 0. The order lists the pages in the occupied
// slots, the one used longest ago first; `used` says how many of its elements count. Arrays of 16 by value are the form that
// document 01 names. C fills the struct and may forge it: what is true of it is judged (judge.rt) and asked, not the type's.
#[repr(C)]
#[derive(Clone, Copy)]
pub struct Slots {
    pub pages: [Page; 16],
    pub changed: [u8; 16],
    pub order: [Page; 16],
    pub used: u32,
}

impl Slots {
    // What an empty slot has for a page.
    pub const NO_PAGE: Page = Page(u32::MAX);
}
