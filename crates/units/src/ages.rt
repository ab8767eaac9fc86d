// The ages of a close: how long a page is owed, when it goes to the base, when its entry leaves, when a place may be given
// again. `wait` is the number of ticks that all four count by (Settings::wait).
ghost use Rattle.std.specs.Prelude.{◌≡◌, ◌+◌};
ghost use Rattle.units.specs.Ages as Ages;

use crate::Tick;

impl Tick {
    // The tick `lag` ticks after this one. It may lie past the largest tick.
    pub fn plus(self, lag: u32) -> u64
        ensures { result ≡ self.0 + lag }
    {
        u64::from(self.0) + u64::from(lag)
    }

    // A page that entered at this tick is owed while `closed` is the closed tick.
    #[tactic(auto, unfolding(crate::specs::Ages::owed))]
    pub fn owed(self, wait: u32, closed: Tick) -> bool
        ensures { result ≡ Ages.owed wait self closed }
    {
        u64::from(closed.0) < self.plus(wait)
    }

    // An entry that entered at this tick goes to the base at close n. `changed_now`, here and below, is a fact about its page, as
    // in the definition, and no switch.
    #[tactic(auto, unfolding(crate::specs::Ages::due))]
    pub fn due(self, wait: u32, changed_now: bool, n: Tick) -> bool
        ensures { result ≡ Ages.due wait self changed_now n }
    {
        let at = self.plus(wait);
        let now = u64::from(n.0);
        at == now || at < now && changed_now
    }

    // An entry whose last change was at this tick leaves at close n.
    #[tactic(auto, unfolding(crate::specs::Ages::leaves))]
    pub fn leaves(self, wait: u32, changed_now: bool, n: Tick) -> bool
        ensures { result ≡ Ages.leaves wait self changed_now n }
    {
        !changed_now && self.plus(wait) + 1 == u64::from(n.0)
    }

    // A place retired at this tick may be given again at close n.
    #[tactic(auto, unfolding(crate::specs::Ages::reusable))]
    pub fn reusable(self, wait: u32, n: Tick) -> bool
        ensures { result ≡ Ages.reusable wait self n }
    {
        self.plus(wait) <= u64::from(n.0)
    }
}
