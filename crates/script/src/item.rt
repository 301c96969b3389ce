// The items of a line: numbers and words.
ghost use Rattle.std.specs.Prelude.{◌≡◌, ◌+◌, ◌*◌};
ghost use Rattle.script.specs.Items.{is_printable, is_word};
ghost use Rattle.script.specs.Shown.{digit_of, held, digits_from, value_in};

// A digit's value.
fn digit(b: u8) -> Option<u32>
    ensures { result ≡ digit_of b }
{
    char::from(b).to_digit(10)
}

// v with a further digit.
fn extended(v: u32, d: u32) -> u32
    ensures { result ≡ held (v * 10 + d) }
{
    v.saturating_mul(10).saturating_add(d)
}

// What an item says as a number. One that passes 32 bits counts as 4,294,967,295. Kept: read by hand, since no reading of the
// library stops there or refuses a leading 0.
pub fn number(s: &[u8]) -> Option<u32>
    ensures { result ≡ value_in s.now }
{
    if s.is_empty() {
        return None;
    }
    if s[0] == b'0' && s.len() != 1 {
        return None;
    }
    digits(s)
}

// The value of digits alone, with or without leading zeros.
fn digits(s: &[u8]) -> Option<u32>
    ensures { result ≡ digits_from 0 s.now }
{
    let mut v = 0;
    for b in s {
        v = extended(v, digit(*b)?);
    }
    Some(v)
}

fn is_printable(b: u8) -> bool
    ensures { result ≡ is_printable b }
{
    b.is_ascii_graphic()
}

pub fn is_word(s: &[u8]) -> bool
    ensures { result ≡ is_word s.now }
{
    !s.is_empty() && s.iter().all(|b| is_printable(*b))
}
