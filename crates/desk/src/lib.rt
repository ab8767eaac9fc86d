// The desk (document 01, "What the desk does"): take, refresh and read. Its state is the held buffer, which it lends.
// The calls below take anything: every slice and number is judged before it is used, the held buffer too.
#![tactic(auto)]

mod follow;
mod locate;
mod marks;

ghost use Rattle.std.specs.Prelude.{◌≡◌};
ghost use Rattle.units.specs.Refusals as Refusals;
ghost use Rattle.desk.specs.Outcome.{TakeDone, RefreshDone, Handed};
ghost use Rattle.desk.specs.Part.{part_of};
ghost use Rattle.desk.specs.Read.{desk_read};
ghost use Rattle.desk.specs.Source as Sources;
ghost use Rattle.desk.specs.Take.{take_reply, refresh_reply};

use locate::{Asked, Span};
use octets::copy;
use sidefile::{headers, judge};
use units::{Page, Refusal};

// The slice that a read hands out a part of; for C 0 and 1 (specs/Source).
#[derive(Clone, Copy, Debug, PartialEq, Eq)]
pub enum Source {
    Base = 0,
    Side = 1,
}

impl From<Source> for u32 {
    ghost from_gives = { λ source n. n ≡ Sources.number source };

    fn from(source: Source) -> u32 {
        source as u32
    }
}

// What a read answers to a program that takes its bytes itself: the number of refusal, the slice (0 the base, 1 the side
// file) and where in it they begin. Of a refusal the last two are 0. C reads it, so refusal and slice are numbers here.
#[repr(C)]
#[derive(Clone, Copy)]
pub struct Part {
    pub number: u32,
    pub source: u32,
    pub offset: usize,
}

// The side file's header and index, copied into the held buffer. 11, 12 or 2.
#[tactic(auto, using(crate::proofs::Followed::whole_long, crate::proofs::Followed::whole_indexed, crate::proofs::Followed::whole_room, crate::proofs::Replied::take_refused, crate::proofs::Replied::take_short, crate::proofs::Replied::take_done))]
pub fn take(side: &[u8], held: &mut [u8]) -> Result<(), Refusal>
    ensures { TakeDone (take_reply side.now held.old) (Refusals.number result) held.new }
{
    judge::judge_whole(side, side.len())?;
    let n = headers::header_of(side).settings.held_length();
    if held.len() < n {
        return Err(Refusal::Short);
    }
    copy(side, 0, held, 0, n);
    Ok(())
}

// The new header and index, and a mark for each page below the new end. 3, 11, 12, 13 or 2. The marks come first: they
// compare with the tick that the copy overwrites.
#[tactic(auto, using(crate::proofs::Followed::held_long, crate::proofs::Followed::whole_long, crate::proofs::Followed::whole_indexed, crate::proofs::Followed::whole_room, crate::proofs::Followed::held_room, crate::proofs::Replied::kept_refused, crate::proofs::Replied::side_refused, crate::proofs::Replied::pair_refused, crate::proofs::Replied::refresh_short, crate::proofs::Replied::refresh_done))]
pub fn refresh(side: &[u8], held: &mut [u8], marks: &mut [u8]) -> Result<(), Refusal>
    ensures { RefreshDone (refresh_reply side.now held.old marks.old) (Refusals.number result) held.new marks.new }
{
    follow::kept(held)?;
    judge::judge_whole(side, side.len())?;
    follow::paired(held, side)?;
    let header = headers::header_of(side);
    if marks.len() < header.end as usize {
        return Err(Refusal::Short);
    }
    marks::mark(side, header, headers::header_of(held).closed, marks);
    copy(side, 0, held, 0, header.settings.held_length());
    Ok(())
}

// The part of the side file or of the base where the page's bytes lie, of the very slice that was lent. On a refusal it is
// the empty part at the base's start.
pub fn read<'a>(
    side: &'a [u8],
    base: &'a [u8],
    held: &[u8],
    page: Page,
    offset: u32,
    length: u32,
) -> &'a [u8]
    ensures { Handed (desk_read held.now side.now base.now page.0 offset length) side.entry base.entry result }
{
    let asked = Asked {
        page,
        offset,
        length,
    };
    let span = locate::locate(side, base, held, asked).unwrap_or(Span::NONE);
    let end = span.start + span.size;
    match span.source {
        Source::Side => &side[span.start..end],
        Source::Base => &base[span.start..end],
    }
}

// What a read answers, part by part: C has a function for each, with these parameters.

// Whether a read is refused: 3, 11, 12, 13, 2, 4, 6 or 14.
pub fn read_number(
    side: &[u8],
    base: &[u8],
    held: &[u8],
    page: Page,
    offset: u32,
    length: u32,
) -> Result<(), Refusal>
    ensures { Refusals.number result ≡ (desk_read held.now side.now base.now page.0 offset length).number }
{
    let asked = Asked {
        page,
        offset,
        length,
    };
    locate::locate(side, base, held, asked)?;
    Ok(())
}

// All that a read answers but the bytes, judged once, in numbers as C has them.
pub fn read_part(
    side: &[u8],
    base: &[u8],
    held: &[u8],
    page: Page,
    offset: u32,
    length: u32,
) -> Part
    ensures { result ≡ part_of (desk_read held.now side.now base.now page.0 offset length) }
{
    let asked = Asked {
        page,
        offset,
        length,
    };
    let found = locate::locate(side, base, held, asked);
    let span = found.unwrap_or(Span::NONE);
    Part {
        number: units::refusal::number(found.map(|_| ())),
        source: u32::from(span.source),
        offset: span.start,
    }
}

// The slice that a read hands out a part of.
pub fn read_source(
    side: &[u8],
    base: &[u8],
    held: &[u8],
    page: Page,
    offset: u32,
    length: u32,
) -> Source
    ensures { Sources.number result ≡ (desk_read held.now side.now base.now page.0 offset length).source }
{
    let asked = Asked {
        page,
        offset,
        length,
    };
    locate::locate(side, base, held, asked)
        .unwrap_or(Span::NONE)
        .source
}

// Where in that slice the part begins.
pub fn read_offset(
    side: &[u8],
    base: &[u8],
    held: &[u8],
    page: Page,
    offset: u32,
    length: u32,
) -> usize
    ensures { result ≡ (desk_read held.now side.now base.now page.0 offset length).offset }
{
    let asked = Asked {
        page,
        offset,
        length,
    };
    locate::locate(side, base, held, asked)
        .unwrap_or(Span::NONE)
        .start
}
