// Numbers in a slice of bytes, high byte first.
ghost use Rattle.std.specs.Prelude.{◌≡◌, ◌+◌, ◌*◌, ◌≤◌, ◌<◌, length, take, drop};
ghost use Rattle.rules.specs.Bytes.{number, all_numbers};
ghost use Rattle.frame.specs.Acks.{eight};

// Kept: s and at as two parameters, here and in the other functions on slices; through `Reader` each would first make one for
// a single place. Kept: w as a number up to 4, and so a loop over bytes, since it is the table's width.

// The number of w bytes that stands at a place.
pub fn number_at(s: &[u8], at: usize, w: usize) -> u32
    requires { (w ≤ 4) × (at + w ≤ length s.now) }
    ensures { result ≡ number (take w (drop at s.now)) }
{
    let mut x = 0;
    for b in &s[at..at + w] {
        x = x * 256 + u32::from(*b);
    }
    x
}

// The n numbers of four bytes from a place on; the others of the eight are 0. Inline, as kind.rt says.
#[inline(always)]
pub fn acks_at(s: &[u8], at: usize, n: usize) -> [u32; 8]
    requires { (n ≤ 8) × (at + 4 * n ≤ length s.now) }
    ensures { result ≡ eight (all_numbers 4 n (drop at s.now)) }
{
    let mut ack = [0u32; 8];
    for i in 0..n {
        ack[i] = number_at(s, at + 4 * i, 4);
    }
    ack
}
