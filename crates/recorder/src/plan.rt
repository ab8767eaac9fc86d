// What a close will do, worked out before anything is written: the changed pages with their places and entry ticks, and the
// rows that leave. There is no plan where there are not places and rows enough (document 01, number 10).
ghost use Rattle.std.specs.Prelude.{◌≡◌, false, replicate};
ghost use Rattle.octets.specs.inner.Flags.{flags};
ghost use Rattle.recorder.specs.inner.Handed.{seen};
ghost use Rattle.recorder.specs.inner.Planned.{Plans, PlansTo};
ghost use Rattle.recorder.specs.World.{World};

use crate::State;
use ledger::{places, renewal, retiring};
use slots::changes;
use units::{Page, Place, Refusal, Settings, Tick};

// The changed pages, their places and their entry ticks, the first `count` of each array, and flags of the rows that leave. An
// array each, as each is filled by a function that is lent it alone.
#[derive(Clone, Copy)]
pub struct Plan {
    pub count: usize,
    pub pages: [Page; 16],
    pub places: [Place; 16],
    pub entered: [Tick; 16],
    pub going: [u8; Settings::ENTRY_FLAGS],
}

impl Plan {
    // Nothing is changed and no row leaves.
    pub fn empty() -> Plan
        ensures { flags result.going ≡ replicate 144 false }
    {
        Plan {
            count: 0,
            pages: [Page(0); 16],
            places: [Place(0); 16],
            entered: [Tick(0); 16],
            going: [0; Settings::ENTRY_FLAGS],
        }
    }

    // The plan of the close of `tick`, into an empty one. 10 or 0. Of the state it looks at settings, e, the number of entries, and
    // the pages in the slots with their flags of change: it asks, and says, no more than of a world with these.
    pub fn fill(&mut self, state: &State, ledger: &[u8], tick: Tick) -> Result<(), Refusal>
        requires empty { flags self.old.going ≡ replicate 144 false }
        requires plans { (w : World) × Plans (seen state.now ledger.now w) tick }
        ensures { (w : World) → Plans (seen state.now ledger.now w) tick → PlansTo (seen state.now ledger.now w) result self.new }
    {
        let settings = state.settings;
        let n = state.entries as usize;
        self.count = changes::changed_pages(
            &state.slots.pages,
            &state.slots.changed,
            settings.slots as usize,
            state.end,
            &mut self.pages,
        );
        let free = places::free_places(ledger, settings, n, tick, self.count, &mut self.places);
        retiring::retiring_rows(
            ledger,
            n,
            &self.pages,
            self.count,
            settings.wait(),
            tick,
            &mut self.going,
            &mut self.entered,
        );
        let later = renewal::staying(&self.going, n) + self.count;
        if free < self.count || settings.entries() < later {
            return Err(Refusal::NoPlace);
        }
        Ok(())
    }
}
