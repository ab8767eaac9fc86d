// The lines of a listing.
ghost use Rattle.std.specs.Prelude.{◌++◌, ◌+◌, ◌*◌, ◌≤◌, min, length};
ghost use Rattle.sidefile.specs.Encode.{header_of, index_of};
ghost use Rattle.sidefile.specs.inner.Passed.{most_front};
ghost use Rattle.sidefile.specs.inner.Tables.{entries_in};
ghost use Rattle.listing.specs.Text.{head_line, entry_line, entry_lines, refused_line, listing, most_text};
ghost use Rattle.listing.specs.inner.Written.{Room, Adds, Listable};

use crate::text::Text;
use sidefile::{Header, IndexEntry, Table, headers, judge};

impl Text<'_> {
    // The listing of a side file of n bytes, of which at least header and index are at hand.
    pub fn listing(&mut self, s: &[u8], n: usize)
        requires { Room self.old most_text × (min n most_front ≤ length s.now) }
        ensures { Adds self.old (listing n s.now) most_text self.new }
    {
        match judge::judge_whole(s, n) {
            Ok(()) => self.file(s),
            Err(refusal) => self.refused(u32::from(refusal)),
        }
    }

    // All that is printed of a refused file.
    pub fn refused(&mut self, number: u32)
        requires { Room self.old 19 }
        ensures { Adds self.old (refused_line number) 19 self.new }
    {
        self.after(b"refused ", number);
        self.byte(b'\n');
    }

    // The first line.
    pub fn head(&mut self, header: Header)
        requires { Room self.old 50 }
        ensures { Adds self.old (head_line header) 50 self.new }
    {
        self.after(b"tick ", header.closed.0);
        self.after(b" end ", header.end);
        self.after(b" entries ", header.entries);
        self.byte(b'\n');
    }

    pub fn entry(&mut self, x: IndexEntry)
        requires { Room self.old 33 }
        ensures { Adds self.old (entry_line x) 33 self.new }
    {
        self.number(x.page.0);
        self.after(b" ", x.place.0);
        self.after(b" ", x.changed.0);
        self.byte(b'\n');
    }

    // All that is printed of a file that is not refused.
    pub fn file(&mut self, s: &[u8])
        requires { Room self.old most_text × Listable s.now }
        ensures { Adds self.old (head_line (header_of s.now) ++ entry_lines (index_of s.now)) most_text self.new }
    {
        let header = headers::header_of(s);
        self.head(header);
        self.entries(Table::index(s, header.entries as usize));
    }

    pub fn entries(&mut self, index: Table)
        requires { Room self.old (index.rows * 33) × (16 ≤ index.width) }
        ensures { Adds self.old (entry_lines (entries_in index.entry)) (index.entry.rows * 33) self.new }
    {
        for i in 0..index.rows {
            self.entry(index.entry(i));
        }
    }
}
