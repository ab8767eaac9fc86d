// The side file (document 01, "The side file"): header and index, their bytes, and the judge of refusals 11 and 12.
// The recorder writes it and the desk reads it, so both stand on this crate.
#![tactic(auto)]

pub mod encode;
pub mod headers;
pub mod judge;
pub mod layout;
pub mod rows;
pub mod table;
pub mod told;

pub use table::Table;
use units::{Page, Place, Settings, Tick};

// What a header says. The side file does not name E, so its settings have the largest one.
#[derive(Clone, Copy)]
pub struct Header {
    pub settings: Settings,
    pub closed: Tick,
    pub end: u32,
    pub entries: u32,
}

// What an entry of the index says.
#[derive(Clone, Copy)]
pub struct IndexEntry {
    pub page: Page,
    pub place: Place,
    pub changed: Tick,
    pub sum: u32,
}
