// The checksum: Bob Jenkins' lookup3, hashlittle. Its definition, specs/Hash.antt, is to be read beside his file.
#![tactic(auto)]

ghost use Rattle.std.specs.Prelude.{◌≡◌, ◌+◌, ◌<◌, ◌≤◌, slice_index};
ghost use Rattle.lookup3.specs.Hash as Hash;

// The three words that every block is mixed into, a, b and c in the published file.
#[derive(Clone, Copy)]
struct Words {
    a: u32,
    b: u32,
    c: u32,
}

// Document 01 asks for a rotation function of its own. Each rotation asks for its count: a type for it would be longer.
fn rotate(x: u32, k: u32) -> u32
    requires { (0 < k) × (k < 32) }
    ensures { result ≡ Hash.rot x k }
{
    x.rotate_left(k)
}

#[tactic(auto, unfolding(crate::specs::Hash::sub_xor))]
fn sub_xor(x: u32, y: u32, k: u32) -> u32
    requires { (0 < k) × (k < 32) }
    ensures { result ≡ Hash.sub_xor x y k }
{
    x.wrapping_sub(y) ^ rotate(y, k)
}

#[tactic(auto, unfolding(crate::specs::Hash::xor_sub))]
fn xor_sub(x: u32, y: u32, k: u32) -> u32
    requires { (0 < k) × (k < 32) }
    ensures { result ≡ Hash.xor_sub x y k }
{
    (x ^ y).wrapping_sub(rotate(y, k))
}

fn byte_or_zero(s: &[u8], i: usize) -> u8
    ensures { result ≡ slice_index s.now i }
{
    s.get(i).copied().unwrap_or(0)
}

// Where all four bytes are there, the compiler makes one load of their reads. Of a word that ends past the slice each byte is
// read where it lies, and what is missing adds nothing.
fn word(s: &[u8], i: usize) -> u32
    requires { i ≤ 8 }
    ensures { result ≡ Hash.word s.now i }
{
    if i + 4 <= s.len() {
        return u32::from_le_bytes([s[i], s[i + 1], s[i + 2], s[i + 3]]);
    }
    u32::from_le_bytes([
        byte_or_zero(s, i),
        byte_or_zero(s, i + 1),
        byte_or_zero(s, i + 2),
        byte_or_zero(s, i + 3),
    ])
}

impl Words {
    #[tactic(auto, unfolding(crate::specs::Hash::begin))]
    fn begin(n: usize, start: u32) -> Words
        ensures { result ≡ Hash.begin n start }
    {
        let v = 0xdead_beefu32
            .wrapping_add((n & 0xffff_ffff) as u32)
            .wrapping_add(start);
        Words { a: v, b: v, c: v }
    }

    // In the loop, where more than twelve bytes are left, the compiler knows that all three words are whole.
    #[tactic(auto, unfolding(crate::specs::Hash::add_block))]
    fn add_block(self, s: &[u8]) -> Words
        ensures { result ≡ Hash.add_block s.now self }
    {
        Words {
            a: self.a.wrapping_add(word(s, 0)),
            b: self.b.wrapping_add(word(s, 4)),
            c: self.c.wrapping_add(word(s, 8)),
        }
    }

    #[tactic(auto, unfolding(crate::specs::Hash::half))]
    fn half(self, i: u32, j: u32, k: u32) -> Words
        requires { (0 < i) × (i < 32) × (0 < j) × (j < 32) × (0 < k) × (k < 32) }
        ensures { result ≡ Hash.half self i j k }
    {
        let a = sub_xor(self.a, self.c, i);
        let c = self.c.wrapping_add(self.b);
        let b = sub_xor(self.b, a, j);
        let a = a.wrapping_add(c);
        let c = sub_xor(c, b, k);
        let b = b.wrapping_add(a);
        Words { a, b, c }
    }

    #[tactic(auto, unfolding(crate::specs::Hash::mix))]
    fn mix(self) -> Words
        ensures { result ≡ Hash.mix self }
    {
        self.half(4, 6, 8).half(16, 19, 4)
    }

    fn finish(self) -> u32
        ensures { result ≡ Hash.final self }
    {
        let c = xor_sub(self.c, self.b, 14);
        let a = xor_sub(self.a, c, 11);
        let b = xor_sub(self.b, a, 25);
        let c = xor_sub(c, b, 16);
        let a = xor_sub(a, c, 4);
        let b = xor_sub(b, a, 14);
        xor_sub(c, b, 24)
    }
}

// The hash of the bytes; start is the published initval, any number.
pub fn hashlittle(bytes: &[u8], start: u32) -> u32
    ensures { result ≡ Hash.hashlittle bytes.now start }
{
    let mut words = Words::begin(bytes.len(), start);
    if bytes.is_empty() {
        return words.c;
    }
    let mut left = bytes;
    // As published, `while (length > 12)`: `chunks(12)` with the last apart takes 1.2 times as long at 36 bytes (the bar is 1.05).
    while 12 < left.len() {
        words = words.add_block(left).mix();
        left = &left[12..];
    }
    words.add_block(left).finish()
}

// The checksum of headers, indexes and images.
pub fn checksum(bytes: &[u8]) -> u32
    ensures { result ≡ Hash.hashlittle bytes.now 0 }
{
    hashlittle(bytes, 0)
}
