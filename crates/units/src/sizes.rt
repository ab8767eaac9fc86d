// The limits of the settings, and every number and length that follows from them.
ghost use Rattle.std.specs.Prelude.{◌≡◌, ◌+◌, ◌*◌, ◌≤◌, ◌<◌, true};
ghost use Rattle.units.specs.Sizes as Sizes;

use crate::{Place, Settings};

fn between(least: u32, most: u32, n: u32) -> bool
    ensures { result ≡ Sizes.between least most n }
{
    (least..=most).contains(&n)
}

fn known_size(p: u32) -> bool
    ensures { result ≡ Sizes.page_size p }
{
    matches!(
        p,
        Settings::LEAST_PAGE_SIZE | 1024 | 2048 | Settings::MOST_PAGE_SIZE
    )
}

impl Settings {
    pub const LEAST_PAGE_SIZE: u32 = 512;

    pub const MOST_PAGE_SIZE: u32 = 4096;

    pub const LEAST_SLOTS: u32 = 1;

    pub const MOST_SLOTS: u32 = 16;

    pub const LEAST_LAG: u32 = 3;

    pub const MOST_LAG: u32 = 8;

    pub const LEAST_CAPACITY: u32 = 1;

    pub const MOST_CAPACITY: u32 = 65535;

    // The largest X.
    pub const MOST_ENTRIES: usize = 144;
    // The bytes of a table with a flag for each entry or place: of the 144 and the 272 that any settings can have. Bits and no
    // `bool` each: a close has several such tables on a stack of 2 KiB.
    pub const ENTRY_FLAGS: usize = 18;

    pub const PLACE_FLAGS: usize = 34;

    pub const HEADER_LENGTH: usize = 36;
    // A row of the index, of the ledger's entries and of its places.
    pub const INDEX_ROW: usize = 16;

    pub const ENTRY_ROW: usize = 20;

    pub const PLACE_ROW: usize = 8;

    #[tactic(auto, unfolding(crate::specs::Sizes::limits))]
    pub fn within_limits(self) -> bool
        ensures { result ≡ Sizes.limits self }
    {
        known_size(self.size)
            && between(Settings::LEAST_SLOTS, Settings::MOST_SLOTS, self.slots)
            && between(Settings::LEAST_LAG, Settings::MOST_LAG, self.lag)
            && between(
                Settings::LEAST_CAPACITY,
                Settings::MOST_CAPACITY,
                self.capacity,
            )
    }

    // The ticks that the ages count by.
    #[tactic(auto, unfolding(crate::specs::Sizes::wait))]
    pub fn wait(self) -> u32
        ensures { result ≡ Sizes.wait self }
    {
        self.lag
    }

    // X. The limits are asked, here and below: document 01 wants functions of a settings value, and C fills it as it likes.
    #[tactic(auto, unfolding(crate::specs::Sizes::entries, crate::specs::Sizes::wait), using(crate::specs::laws::Bounds::limits_within, crate::specs::laws::Bounds::entries_most))]
    pub fn entries(self) -> usize
        requires { Sizes.limits self ≡ true }
        ensures { (result ≡ Sizes.entries self) × (result ≤ 144) }
    {
        (self.wait() as usize + 1) * self.slots as usize
    }

    // M.
    #[tactic(auto, unfolding(crate::specs::Sizes::places, crate::specs::Sizes::wait), using(crate::specs::laws::Bounds::limits_within, crate::specs::laws::Bounds::places_most))]
    pub fn places(self) -> usize
        requires { Sizes.limits self ≡ true }
        ensures { (result ≡ Sizes.places self) × (result ≤ 272) }
    {
        (2 * self.wait() as usize + 1) * self.slots as usize
    }

    // Where the index ends in a side file.
    #[tactic(auto, unfolding(crate::specs::Sizes::index_end))]
    pub fn index_end(self) -> usize
        requires { Sizes.limits self ≡ true }
        ensures { (result ≡ Sizes.index_end self) × (result ≤ 2340) }
    {
        Settings::HEADER_LENGTH + Settings::INDEX_ROW * self.entries()
    }

    // How long a held buffer is at least.
    pub fn held_length(self) -> usize
        requires { Sizes.limits self ≡ true }
        ensures { (result ≡ Sizes.held_length self) × (result ≤ 2340) }
    {
        self.index_end()
    }

    // Where image place 0 begins: the end of the index, rounded up to whole pages.
    #[tactic(auto, unfolding(crate::specs::Sizes::first_image), using(crate::specs::laws::Bounds::limits_within, crate::specs::laws::Bounds::size_some, crate::specs::laws::Bounds::first_image_most))]
    pub fn first_image(self) -> usize
        requires { Sizes.limits self ≡ true }
        ensures { (result ≡ Sizes.first_image self) × (result ≤ 6435) }
    {
        let p = self.size as usize;
        (self.index_end() + (p - 1)) / p * p
    }

    // Where an image place begins.
    #[tactic(auto, unfolding(crate::specs::Sizes::image_at), using(crate::specs::laws::Bounds::limits_within, crate::specs::laws::Bounds::pages_most))]
    pub fn image_at(self, place: Place) -> usize
        requires { Sizes.limits self ≡ true }
        ensures { (result ≡ Sizes.image_at self place) × (result < 17592186050850) }
    {
        self.first_image() + place.0 as usize * self.size as usize
    }

    // The end of image place M - 1: how long a side file is at least.
    #[tactic(auto, unfolding(crate::specs::Sizes::side_length), using(crate::specs::laws::Bounds::limits_within, crate::specs::laws::Bounds::places_most, crate::specs::laws::Bounds::pages_most))]
    pub fn side_length(self) -> usize
        requires { Sizes.limits self ≡ true }
        ensures { (result ≡ Sizes.side_length self) × (result ≤ 1120547) }
    {
        self.first_image() + self.places() * self.size as usize
    }

    #[tactic(auto, unfolding(crate::specs::Sizes::base_length), using(crate::specs::laws::Bounds::limits_within, crate::specs::laws::Bounds::pages_most))]
    pub fn base_length(self) -> usize
        requires { Sizes.limits self ≡ true }
        ensures { (result ≡ Sizes.base_length self) × (result ≤ 268431360) }
    {
        self.capacity as usize * self.size as usize
    }

    #[tactic(auto, unfolding(crate::specs::Sizes::buffer_length), using(crate::specs::laws::Bounds::limits_within, crate::specs::laws::Bounds::pages_most))]
    pub fn buffer_length(self) -> usize
        requires { Sizes.limits self ≡ true }
        ensures { (result ≡ Sizes.buffer_length self) × (result ≤ 65536) }
    {
        self.slots as usize * self.size as usize
    }

    // Where the ledger's places begin, behind its entries.
    #[tactic(auto, unfolding(crate::specs::Sizes::places_at))]
    pub fn places_at(self) -> usize
        requires { Sizes.limits self ≡ true }
        ensures { (result ≡ Sizes.places_at self) × (result ≤ 2880) }
    {
        Settings::ENTRY_ROW * self.entries()
    }

    #[tactic(auto, unfolding(crate::specs::Sizes::ledger_length))]
    pub fn ledger_length(self) -> usize
        requires { Sizes.limits self ≡ true }
        ensures { (result ≡ Sizes.ledger_length self) × (result ≤ 5056) }
    {
        self.places_at() + Settings::PLACE_ROW * self.places()
    }
}
