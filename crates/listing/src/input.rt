// What is kept of an input that comes in pieces: its first bytes, and how many there were.
ghost use Rattle.std.specs.Prelude.{◌≡◌, ◌+◌, ◌^◌, ◌<◌, length};
ghost use Rattle.octets.specs.Part.{lay};

// Bytes and count stay apart: one loop carries them, and a type that holds the lent bytes would say no more.
// `next` comes after `total` bytes: as much of it is kept as there is room for behind them, and all of it is counted.
pub fn keep(kept: &mut [u8], total: usize, next: &[u8]) -> usize
    requires { total + length next.now < 2 ^ 64 }
    ensures { (kept.new ≡ lay kept.old total next.now) × (result ≡ total + length next.now) }
{
    if total < kept.len() {
        let room = kept.len() - total;
        octets::copy(next, 0, kept, total, next.len().min(room));
    }
    total + next.len()
}
