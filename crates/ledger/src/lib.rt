// The ledger: the recorder's entries and image places, as rows in lent bytes. It is state, kept beside the small struct:
// X rows of 20 bytes, an index entry as the side file has it followed by its entry tick; then M rows of 8 bytes, retired
// (0 or not) and the tick of that. Rows of bytes and no list of structs, for there is no heap.
#![tactic(auto)]

pub mod index;
pub mod judge;
pub mod places;
pub mod renewal;
pub mod retiring;
pub mod rows;
pub mod search;

use units::{Page, Place, Tick};

#[derive(Clone, Copy)]
pub struct Entry {
    pub page: Page,
    pub place: Place,
    pub changed: Tick,
    pub sum: u32,
    pub entered: Tick,
}
