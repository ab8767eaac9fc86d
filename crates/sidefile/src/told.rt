// What a side file or a held buffer says, for programs that show it: its header, and the entries of its index one by one. Both
// calls take any bytes. They judge the header, and that there is room for the index that it names; the index goes unjudged.
ghost use Rattle.std.specs.Prelude.{◌≡◌, IfOk};
ghost use Rattle.units.specs.Refusals as Refusals;
ghost use Rattle.units.specs.Tests.{verdict};
ghost use Rattle.sidefile.specs.Encode.{header_of};
ghost use Rattle.sidefile.specs.Told.{told_tests, told, untold, no_entry, entry_told};

use crate::{Header, headers, judge, rows};
use units::{Page, Place, Refusal, Settings, Tick};

// 11, 12 or 0, and what the header says; of a refusal, zeros. The files do not name E: `settings.capacity` is the largest.
// C reads this struct and the next, so each has a number beside what is told.
#[repr(C)]
#[derive(Clone, Copy)]
pub struct Told {
    pub number: u32,
    pub tick: Tick,
    pub end: u32,
    pub entries: u32,
    pub settings: Settings,
}

// 1 and an entry of the index, or zeros.
#[repr(C)]
#[derive(Clone, Copy)]
pub struct EntryTold {
    pub found: u32,
    pub page: Page,
    pub place: Place,
    pub changed: Tick,
    pub sum: u32,
}

fn refuse(refusal: Refusal) -> Told
    ensures { result ≡ untold (Refusals.code refusal) }
{
    Told {
        number: u32::from(refusal),
        tick: Tick(0),
        end: 0,
        entries: 0,
        settings: Settings {
            size: 0,
            slots: 0,
            lag: 0,
            capacity: 0,
        },
    }
}

fn missing() -> EntryTold
    ensures { result ≡ no_entry }
{
    EntryTold {
        found: 0,
        page: Page(0),
        place: Place(0),
        changed: Tick(0),
        sum: 0,
    }
}

// The header, if it passes and there is room for the index that it names.
#[tactic(auto, using(crate::proofs::Telling::told_long))]
fn front_header(front: &[u8]) -> Result<Header, Refusal>
    ensures judged { Refusals.number result ≡ verdict (told_tests front.now) }
    ensures read { IfOk result (λ h. h ≡ header_of front.now) }
{
    judge::judge_header(front, front.len(), false)?;
    Ok(headers::header_of(front))
}

#[tactic(auto, using(crate::proofs::Telling::told_refused, crate::proofs::Telling::told_done))]
pub fn header_told(front: &[u8]) -> Told
    ensures { result ≡ told front.now }
{
    match front_header(front) {
        Ok(header) => Told {
            number: 0,
            tick: header.closed,
            end: header.end,
            entries: header.entries,
            settings: header.settings,
        },
        Err(refusal) => refuse(refusal),
    }
}

#[tactic(auto, using(crate::proofs::Telling::entry_past, crate::proofs::Telling::entry_done))]
pub fn entry_told(front: &[u8], i: u32) -> EntryTold
    ensures { result ≡ entry_told front.now i }
{
    let Ok(header) = front_header(front) else {
        return missing();
    };
    if header.entries <= i {
        return missing();
    }
    let x = rows::entry(
        front,
        Settings::HEADER_LENGTH,
        Settings::INDEX_ROW,
        i as usize,
    );
    EntryTold {
        found: 1,
        page: x.page,
        place: x.place,
        changed: x.changed,
        sum: x.sum,
    }
}
