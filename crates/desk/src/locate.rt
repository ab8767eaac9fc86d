// Where the bytes of a read lie: in the image of the page's held entry, or in the base.
ghost use Rattle.std.specs.Prelude.{◌≡◌, true, ◌+◌, ◌≤◌};
ghost use Rattle.std.proofs.Math.ListN as ListN;
ghost use Rattle.units.specs.Refusals as Refusals;
ghost use Rattle.units.specs.Sizes.{limits, image_at};
ghost use Rattle.units.specs.Tests.{verdict};
ghost use Rattle.desk.specs.Read.{span_tests, read_tests, desk_read};
ghost use Rattle.desk.specs.inner.Span.{base_span, image_span, Locates};

use crate::{Source, follow};
use sidefile::{Header, IndexEntry, Table, headers, judge};
use units::{Page, Refusal, Settings};

// What a read asks for: `length` bytes of a page, from `offset` on.
#[derive(Clone, Copy)]
pub struct Asked {
    pub page: Page,
    pub offset: u32,
    pub length: u32,
}

// Where they lie.
#[derive(Clone, Copy)]
pub struct Span {
    pub source: Source,
    pub start: usize,
    pub size: usize,
}

impl Span {
    // The part that a refused read hands out: the empty one at the base's start.
    pub const NONE: Span = Span {
        source: Source::Base,
        start: 0,
        size: 0,
    };
}

impl Asked {
    // 2, 4 or 6: what the base and the span are asked.
    #[tactic(auto, unfolding(crate::specs::Read::span_tests, units::specs::Tests::verdict))]
    fn within(self, base: &[u8], held: Header) -> Result<(), Refusal>
        ensures { Refusals.number result ≡ verdict (span_tests held base.now self.page.0 self.offset self.length) }
    {
        let size = held.settings.size as usize;
        if base.len() < size * held.end as usize {
            return Err(Refusal::Short);
        }
        if held.end <= self.page.0 {
            return Err(Refusal::Page);
        }
        if self.length < 1 || size < self.offset as usize + self.length as usize {
            return Err(Refusal::Span);
        }
        Ok(())
    }

    #[tactic(auto, unfolding(crate::specs::inner::Span::base_span))]
    fn in_base(self, settings: Settings) -> Span
        ensures { result ≡ base_span settings self.page.0 self.offset self.length }
    {
        Span {
            source: Source::Base,
            start: self.page.0 as usize * settings.size as usize + self.offset as usize,
            size: self.length as usize,
        }
    }

    // The checksum is that of the whole image, however short the span.
    #[tactic(auto, unfolding(crate::specs::inner::Span::image_span, sidefile::specs::Encode::image_sum, sidefile::specs::Encode::checksum, octets::specs::Part::part))]
    fn in_image(self, side: &[u8], settings: Settings, x: IndexEntry) -> Result<Span, Refusal>
        requires { (limits settings ≡ true) × (image_at settings x.place + settings.size ≤ ListN.length side.now) }
        ensures { result ≡ image_span settings side.now x self.offset self.length }
    {
        let at = settings.image_at(x.place);
        let end = at + settings.size as usize;
        if lookup3::checksum(&side[at..end]) != x.sum {
            return Err(Refusal::Image);
        }
        Ok(Span {
            source: Source::Side,
            start: at + self.offset as usize,
            size: self.length as usize,
        })
    }
}

// Every refusal but 14.
#[tactic(auto, using(crate::proofs::Followed::held_long, crate::proofs::Followed::front_long, crate::proofs::Spans::kept_refuses, crate::proofs::Spans::front_refuses, crate::proofs::Spans::pair_refuses, crate::proofs::Spans::span_decides))]
fn readable(side: &[u8], base: &[u8], held: &[u8], asked: Asked) -> Result<(), Refusal>
    ensures { Refusals.number result ≡ verdict (read_tests held.now side.now base.now asked.page.0 asked.offset asked.length) }
{
    follow::kept(held)?;
    judge::judge_front(side, side.len())?;
    follow::paired(held, side)?;
    asked.within(base, headers::header_of(held))
}

#[tactic(auto, using(crate::proofs::Spans::read_long, crate::proofs::Spans::read_rows, crate::proofs::Spans::found_below, crate::proofs::Spans::image_fits, crate::proofs::Spans::locate_refused, crate::proofs::Spans::locate_image, crate::proofs::Spans::locate_base))]
pub fn locate(side: &[u8], base: &[u8], held: &[u8], asked: Asked) -> Result<Span, Refusal>
    ensures { Locates (desk_read held.now side.now base.now asked.page.0 asked.offset asked.length) side.now base.now result }
{
    readable(side, base, held, asked)?;
    let header = headers::header_of(held);
    let index = Table::index(held, header.entries as usize);
    match index.find(asked.page) {
        Some(i) => asked.in_image(side, header.settings, index.entry(i)),
        None => Ok(asked.in_base(header.settings)),
    }
}
