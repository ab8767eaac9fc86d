// Lists the side file on standard input (document 01, "Listing"). Here it is only read and written; what is kept of it, and
// the text, are listing's. A read that fails is no end of the input: then there is a line on standard error and no listing.
#![tactic(auto)]

ghost use Rattle.std.specs.Prelude.{◌≡◌, ◌≤◌, length, take, IfOk, IfSome};
ghost use Rattle.std.specs.Io.KnownBytes.{ReadConsumes};
ghost use Rattle.octets.specs.Part.{lay};
ghost use Rattle.listing.specs.Text.{listing, most_text};
ghost use Rattle.sidelist.specs.Input.{Came, Read, Lists};

use listing::{MOST_TEXT, input};
use sidefile::layout;
use std::io;

// Each function but `main` answers how many bytes there are, that one read brought, of the whole input, of its listing; or why
// a read failed. Where the reader says which bytes it has left, as one over memory does, those are counted, kept and listed.

// One read; one that a signal cut short is made again. Nothing says that signals end, so there is a last try.
fn read_some<R: io::Read>(from: &mut R, chunk: &mut [u8]) -> io::Result<usize>
    ensures came { Came chunk.new result }
    ensures known { ReadConsumes (R.remaining from.old) (R.remaining from.new) result chunk.new }
{
    for _ in 0..0xffff_ffffu32 {
        match from.read(chunk) {
            Err(e) if e.kind() == io::ErrorKind::Interrupted => {}
            read => return read,
        }
    }
    Err(io::Error::from(io::ErrorKind::Interrupted))
}

// To the end of the input. Nothing says that an input ends, so the loop also ends at a count that none reaches.
fn read_all<R: io::Read>(from: &mut R, kept: &mut [u8]) -> io::Result<usize>
    ensures read { Read kept.old kept.new result }
    ensures known { IfOk result (λ total. IfSome (R.remaining from.old) (λ input.
        (kept.new ≡ lay kept.old 0 input) × (total ≡ length input))) }
{
    let mut chunk = [0u8; 65536];
    let mut total: usize = 0;
    while total < 0x7fff_ffff_ffff_0000 {
        let n = read_some(from, &mut chunk)?;
        if n == 0 {
            return Ok(total);
        }
        total = input::keep(kept, total, &chunk[..n]);
    }
    Err(io::Error::from(io::ErrorKind::FileTooLarge))
}

// The listing of the input, from the front of `out` on.
fn list_input<R: io::Read>(from: &mut R, out: &mut [u8]) -> io::Result<usize>
    requires { most_text ≤ length out.old }
    ensures lists { Lists out.new result }
    ensures known { IfOk result (λ n. IfSome (R.remaining from.old) (λ input.
        take n out.new ≡ listing (length input) input)) }
{
    let mut kept = [0u8; layout::MOST_FRONT];
    let total = read_all(from, &mut kept)?;
    Ok(listing::list_kept(&kept, total, out))
}

fn main(rt: HostRuntime) -> io::Result<()> {
    let mut text = [0u8; MOST_TEXT];
    let mut input = rt.stdin();
    match list_input(&mut input, &mut text) {
        Ok(n) => match rt.write_all(&text[..n]) {
            Ok(()) => Ok(()),
            Err(e) => eprintln!(rt; "sidelist: standard output: {e}"),
        },
        Err(e) => eprintln!(rt; "sidelist: standard input: {e}"),
    }
}
