// The bytes of a page, in the base or in a slot of the page buffer: part of them read or written, or all of them zeroed. Page k
// of the base and slot k of the buffer both begin at k times the page size.
ghost use Rattle.std.specs.Prelude.{◌≡◌, ◌+◌, ◌*◌, ◌≤◌, length, replicate};
ghost use Rattle.octets.specs.Part.{lay};
ghost use Rattle.recorder.specs.Calls.{span_in, laid_in};

// The bytes at an offset, as many as `into` has room for.
pub fn read_span(from: &[u8], k: usize, size: u32, offset: u32, into: &mut [u8])
    requires { k * size + offset + length into.old ≤ length from.now }
    ensures { into.new ≡ span_in size from.now k offset (length into.old) }
{
    let at = k * size as usize + offset as usize;
    let n = into.len();
    octets::copy(from, at, into, 0, n);
}

// The bytes laid over it at an offset.
pub fn write_span(bytes: &[u8], into: &mut [u8], k: usize, size: u32, offset: u32)
    requires { k * size + offset + length bytes.now ≤ length into.old }
    ensures { into.new ≡ laid_in size into.old k offset bytes.now }
{
    let at = k * size as usize + offset as usize;
    octets::copy(bytes, 0, into, at, bytes.len());
}

pub fn clear_page(into: &mut [u8], k: usize, size: u32)
    requires { k * size + size ≤ length into.old }
    ensures { into.new ≡ lay into.old (k * size) (replicate size 0) }
{
    octets::clear(into, k * size as usize, size as usize);
}
