// The C boundary: what libungletice.a exports, over plain numbers and byte slices (a pointer, then a length).
// Thin: each export calls the function of the crate that has it, and its contract is that function's. None has a requires.
#![tactic(auto)]

pub mod fields;
pub mod fronts;
pub mod lengths;
pub mod recording;
pub mod viewer;

ghost use Rattle.std.specs.Prelude.{◌≡◌};
ghost use Rattle.lookup3.specs.Hash.{hashlittle};

// lookup3's hashlittle; every checksum of a side file has the start value 0.
#[unsafe(no_mangle)]
pub extern "C" fn ungletice_lookup3(bytes: &[u8], start: u32) -> u32
    ensures { result ≡ hashlittle bytes.now start }
{
    lookup3::hashlittle(bytes, start)
}
