// The listing of a side file (document 01, "Listing"): what the program `sidelist` prints, as a function of the bytes it
// reads, and what it keeps of them. Its text is specs/Text's `listing`.
#![tactic(auto)]

pub mod input;
pub mod lines;
pub mod text;

ghost use Rattle.std.specs.Prelude.{◌≤◌, min, length, take};
ghost use Rattle.sidefile.specs.inner.Passed.{most_front};
ghost use Rattle.listing.specs.Text.{listing, most_text};
ghost use Rattle.listing.specs.inner.Written.{Written};

use sidefile::layout;
use text::Text;

// How long a text gets: a first line of at most 50 bytes and 144 lines of at most 33.
pub const MOST_TEXT: usize = 4802;

// The listing of a side file of n bytes, of which at least header and index are at hand, from the front of `out` on; and
// its length.
pub fn list(s: &[u8], n: usize, out: &mut [u8]) -> usize
    requires { (min n most_front ≤ length s.now) × (most_text ≤ length out.old) }
    ensures { Written out.old 0 (listing n s.now) out.new result × (result ≤ most_text) }
{
    let mut text = Text { out, end: 0 };
    text.listing(s, n);
    text.end
}

// The listing of a file of `total` bytes, of which the first stand in `kept`: as many as there are and as it has room for.
pub fn list_kept(kept: &[u8], total: usize, out: &mut [u8]) -> usize
    requires { (most_front ≤ length kept.now) × (most_text ≤ length out.old) }
    ensures { Written out.old 0 (listing total (take (min total most_front) kept.now)) out.new result × (result ≤ most_text) }
{
    list(&kept[..total.min(layout::MOST_FRONT)], total, out)
}
