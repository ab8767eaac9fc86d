// The marks of a refresh.
ghost use Rattle.std.specs.Prelude.{◌≡◌, ◌++◌, map, drop};
ghost use Rattle.lists.specs.Below.{below};
ghost use Rattle.sidefile.specs.Encode.{index_of};
ghost use Rattle.desk.specs.inner.Marks.{Markable};
ghost use Rattle.desk.specs.Take.{mark_of};

use sidefile::{Header, Table};
use units::Tick;

// One pass over the pages and one over the entries.
#[tactic(auto, using(crate::proofs::Raised::mark_rows, crate::proofs::Raised::mark_page, crate::proofs::Raised::raise_late, crate::proofs::Raised::raise_early, crate::proofs::Raised::raise_end, crate::proofs::Raised::mark_made))]
pub fn mark(side: &[u8], header: Header, held: Tick, marks: &mut [u8])
    requires { Markable header side.now marks.old }
    ensures { marks.new ≡ map (mark_of held (index_of side.now)) (below header.end) ++ drop header.end marks.old }
{
    octets::clear(marks, 0, header.end as usize);
    let index = Table::index(side, header.entries as usize);
    for i in 0..index.rows {
        let entry = index.entry(i);
        if held < entry.changed {
            marks[entry.page.0 as usize] = 1;
        }
    }
}
