// The bytes of a call and of what it gave.
ghost use Rattle.std.specs.Prelude.{◌≡◌, ◌≤◌, length};
ghost use Rattle.replay.specs.Record.{number_at, text_of, four, head_of};

use tables;

// The number of four bytes from a place on, high byte first; bytes past the end count as 0.
pub fn number_at(s: &[u8], at: usize) -> u32
    requires { at ≤ 204 }
    ensures { result ≡ number_at s.now at }
{
    u32::from_be_bytes([
        tables::get_or(s, at, 0),
        tables::get_or(s, at + 1, 0),
        tables::get_or(s, at + 2, 0),
        tables::get_or(s, at + 3, 0),
    ])
}

// Those of the 200 bytes that count. Kept: 208 bytes as a length in four contracts; as an array each record would first be
// made one, `<&[u8; 208]>::try_from(&input[from..to])` with an `unwrap` to prove, which is no plainer.
pub fn text(s: &[u8]) -> &[u8]
    requires { 208 ≤ length s.now }
    ensures { result.now ≡ text_of s.now }
{
    tables::front(&s[8..208], tables::get_or(s, 7, 0) as usize)
}

// The last four bytes of a number, high byte first.
fn four(x: usize) -> [u8; 4]
    ensures { result ≡ four x }
{
    ((x % 4294967296) as u32).to_be_bytes()
}

// Answer and numbers of a call, as the reply starts with them. Kept: the answer as a number, since its byte is written.
pub fn head(answer: u32, a: usize, b: usize, c: usize) -> [u8; 16]
    ensures { result ≡ head_of answer a b c }
{
    let [a0, a1, a2, a3] = four(a);
    let [b0, b1, b2, b3] = four(b);
    let [c0, c1, c2, c3] = four(c);
    let low = (answer % 256) as u8;
    [low, a0, a1, a2, a3, b0, b1, b2, b3, c0, c1, c2, c3, 0, 0, 0]
}
