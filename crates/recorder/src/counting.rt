// The counts (document 01, "Counts"): what a hit, a miss, an eviction and a bypass add. Each stops at the largest number.
ghost use Rattle.std.specs.Prelude.{◌≡◌};
ghost use Rattle.recorder.specs.inner.Using.{add_use};
ghost use Rattle.recorder.specs.World as World;

use crate::Counts;
use crate::buffer::Use;

impl Counts {
    pub fn none() -> Counts
        ensures { result ≡ World.no_counts }
    {
        Counts {
            accesses: 0,
            hits: 0,
            misses: 0,
            evictions: 0,
            bypasses: 0,
        }
    }

    fn hit(mut self) -> Counts
        ensures { result ≡ World.add_hit self }
    {
        self.accesses = self.accesses.saturating_add(1);
        self.hits = self.hits.saturating_add(1);
        self
    }

    // `evicts`, here and below, is told of the seat, as to the definition.
    pub fn eviction(mut self, evicts: bool) -> Counts
        ensures { result ≡ World.add_eviction «evicts» self }
    {
        if evicts {
            self.evictions = self.evictions.saturating_add(1);
        }
        self
    }

    fn miss(mut self, evicts: bool) -> Counts
        ensures { result ≡ World.add_miss «evicts» self }
    {
        self.accesses = self.accesses.saturating_add(1);
        self.misses = self.misses.saturating_add(1);
        self.eviction(evicts)
    }

    // A page used in its slot, or in one that it took.
    pub fn used(self, used: Use) -> Counts
        ensures { result ≡ add_use used self }
    {
        match used {
            Use::Hit(_) => self.hit(),
            Use::Taken(seat) => self.miss(seat.evicts),
        }
    }

    pub fn bypass(mut self) -> Counts
        ensures { result ≡ World.add_bypass self }
    {
        self.bypasses = self.bypasses.saturating_add(1);
        self
    }
}
