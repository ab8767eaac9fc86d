// Leaf functions over the C boundary, for the measurements alone: no part of the library that C programs link.
// Each takes any numbers, and does nothing where what it would touch does not lie inside the slices.
#![tactic(auto)]

ghost use Rattle.std.specs.Prelude.{◌≡◌};
ghost use Rattle.leaves.specs.inner.Guarded.{copied};

// octets::copy where both parts fit.
#[tactic(auto, unfolding(crate::specs::inner::Guarded::copied))]
#[unsafe(no_mangle)]
pub extern "C" fn leaves_copy(src: &[u8], from: usize, dst: &mut [u8], to: usize, n: usize)
    ensures { dst.new ≡ copied src.now from dst.old to n }
{
    if from.saturating_add(n) <= src.len() && to.saturating_add(n) <= dst.len() {
        octets::copy(src, from, dst, to, n);
    }
}
