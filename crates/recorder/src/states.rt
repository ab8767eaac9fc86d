// The states that the calls answer: those of an open, and what a call does to a state.
ghost use Rattle.std.specs.Prelude.{◌≡◌, [], ◌+◌, ◌<◌};
ghost use Rattle.slots.specs.inner.Asked.{Takes};
ghost use Rattle.recorder.specs.Calls as Calls;
ghost use Rattle.recorder.specs.Outcome.{lent};
ghost use Rattle.recorder.specs.inner.Using as Using;
ghost use Rattle.recorder.specs.World.{set_end, zero_state};

use crate::buffer::Use;
use crate::{Counts, State};
use slots::{Seat, Slots};
use units::{Page, Settings, Tick};

impl State {
    // The state of a refused open.
    #[tactic(auto, unfolding(crate::specs::World::zero_state))]
    pub fn zero() -> State
        ensures { result ≡ zero_state }
    {
        State {
            settings: Settings {
                size: 0,
                slots: 0,
                lag: 0,
                capacity: 0,
            },
            end: 0,
            closed: Tick(0),
            entries: 0,
            slots: Slots::zero(),
            meta: Counts::none(),
            raw: Counts::none(),
        }
    }

    // The state of an accepted open.
    #[tactic(auto, unfolding(crate::specs::Calls::open_state))]
    pub fn first(settings: Settings, end: u32, tick: Tick) -> State
        ensures { result ≡ Calls.open_state settings end tick.0 }
    {
        State {
            settings,
            end,
            closed: tick,
            entries: 0,
            slots: Slots::empty(),
            meta: Counts::none(),
            raw: Counts::none(),
        }
    }

    // A raw access is counted.
    #[tactic(auto, unfolding(crate::specs::Calls::raw_bypass))]
    pub fn raw_bypass(&mut self)
        ensures { self.new ≡ (Calls.raw_bypass (lent self.old [] [] [] [] [])).state }
    {
        self.raw = self.raw.bypass();
    }

    // A metadata read is counted that found no slot.
    #[tactic(auto, unfolding(crate::specs::Calls::meta_bypass))]
    pub fn meta_bypass(&mut self)
        ensures { self.new ≡ (Calls.meta_bypass (lent self.old [] [] [] [] [])).state }
    {
        self.meta = self.meta.bypass();
    }

    // A page is used in its slot, and counted.
    pub fn used(&mut self, used: Use, page: Page)
        requires { Using.Places used page.0 self.old.slots }
        ensures { self.new ≡ Using.used_state used page.0 self.old }
    {
        self.slots = used.place(self.slots, page);
        self.meta = self.meta.used(used);
    }

    // The page in a slot is changed.
    pub fn changed(&mut self, slot: usize)
        requires { slot < 16 }
        ensures { self.new ≡ Using.changed_state slot self.old }
    {
        self.slots = self.slots.mark(slot);
    }

    // There is one page more, a raw one.
    pub fn grown(&mut self)
        requires { self.old.end < 4294967295 }
        ensures { self.new ≡ set_end (self.old.end + 1) self.old }
    {
        self.end += 1;
    }

    // There is one page more, a metadata one, changed in the slot that it takes.
    pub fn seated(&mut self, seat: Seat)
        requires { (self.old.end < 4294967295) × Takes seat.slot seat.evicts self.old.slots }
        ensures { self.new ≡ Using.seated_state seat self.old }
    {
        self.slots = self.slots.take(seat, Page(self.end)).mark(seat.slot);
        self.meta = self.meta.eviction(seat.evicts);
        self.end += 1;
    }
}
