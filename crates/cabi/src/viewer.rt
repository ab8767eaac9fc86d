// The calls of the desk viewer, which is a C program (document 01, "What the desk does"). A read answers its number; two
// companions answer the slice and the offset in it. `ungletice_read_part` answers all three and judges once.
ghost use Rattle.std.specs.Prelude.{◌≡◌};
ghost use Rattle.desk.specs.Outcome.{TakeDone, RefreshDone};
ghost use Rattle.desk.specs.Part.{part_of};
ghost use Rattle.desk.specs.Read.{desk_read};
ghost use Rattle.desk.specs.Take.{take_reply, refresh_reply};

use desk::Part;
use units::{Page, refusal};

#[unsafe(no_mangle)]
pub extern "C" fn ungletice_take(side: &[u8], held: &mut [u8]) -> u32
    ensures { TakeDone (take_reply side.now held.old) result held.new }
{
    refusal::number(desk::take(side, held))
}

#[unsafe(no_mangle)]
pub extern "C" fn ungletice_refresh(side: &[u8], held: &mut [u8], marks: &mut [u8]) -> u32
    ensures { RefreshDone (refresh_reply side.now held.old marks.old) result held.new marks.new }
{
    refusal::number(desk::refresh(side, held, marks))
}

#[unsafe(no_mangle)]
pub extern "C" fn ungletice_read(
    side: &[u8],
    base: &[u8],
    held: &[u8],
    page: u32,
    offset: u32,
    length: u32,
) -> u32
    ensures { result ≡ (desk_read held.now side.now base.now page offset length).number }
{
    refusal::number(desk::read_number(side, base, held, Page(page), offset, length))
}

// 0 the base, 1 the side file.
#[unsafe(no_mangle)]
pub extern "C" fn ungletice_read_source(
    side: &[u8],
    base: &[u8],
    held: &[u8],
    page: u32,
    offset: u32,
    length: u32,
) -> u32
    ensures { result ≡ (desk_read held.now side.now base.now page offset length).source }
{
    u32::from(desk::read_source(side, base, held, Page(page), offset, length))
}

#[unsafe(no_mangle)]
pub extern "C" fn ungletice_read_offset(
    side: &[u8],
    base: &[u8],
    held: &[u8],
    page: u32,
    offset: u32,
    length: u32,
) -> usize
    ensures { result ≡ (desk_read held.now side.now base.now page offset length).offset }
{
    desk::read_offset(side, base, held, Page(page), offset, length)
}

#[unsafe(no_mangle)]
pub extern "C" fn ungletice_read_part(
    side: &[u8],
    base: &[u8],
    held: &[u8],
    page: u32,
    offset: u32,
    length: u32,
) -> Part
    ensures { result ≡ part_of (desk_read held.now side.now base.now page offset length) }
{
    desk::read_part(side, base, held, Page(page), offset, length)
}
