// Text that is written into lent bytes, piece behind piece.
ghost use Rattle.std.specs.Prelude.{[], ◌∷◌, ◌++◌, ◌+◌, length};
ghost use Rattle.listing.specs.Decimal.{decimal};
ghost use Rattle.listing.specs.inner.Written.{Room, Adds};

// The next piece goes to byte `end`.
#[derive(Drop)]
pub struct Text<'a> {
    pub out: &'a mut [u8],
    pub end: usize,
}

impl Text<'_> {
    pub fn byte(&mut self, b: u8)
        requires { Room self.old 1 }
        ensures { Adds self.old (b ∷ []) 1 self.new }
    {
        self.out[self.end] = b;
        self.end += 1;
    }

    pub fn word(&mut self, word: &[u8])
        requires { Room self.old (length word.now) }
        ensures { Adds self.old word.now (length word.now) self.new }
    {
        octets::copy(word, 0, self.out, self.end, word.len());
        self.end += word.len();
    }

    // A number, for which there is room for ten digits. Those before the last come first, by a call of its own.
    // By hand: of the library's `write!` into lent bytes no contract says when it succeeds, and a listing is always whole.
    pub fn number(&mut self, v: u32)
        requires { Room self.old 10 }
        ensures { Adds self.old (decimal v) 10 self.new }
    {
        let one_digit = v < 10;
        if !one_digit {
            self.number(v / 10);
        }
        self.byte(b'0' + (v % 10) as u8);
    }

    // A word and a number.
    pub fn after(&mut self, word: &[u8], v: u32)
        requires { Room self.old (length word.now + 10) }
        ensures { Adds self.old (word.now ++ decimal v) (length word.now + 10) self.new }
    {
        self.word(word);
        self.number(v);
    }
}
