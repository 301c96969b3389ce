// House fields in a slice of bytes.
ghost use Rattle.std.specs.Prelude.{◌≡◌};
ghost use Rattle.frame.specs.Table.{tag_number};
ghost use Rattle.frame.specs.Field.{field_at, part_at};

use crate::number::number_at;
use crate::table::Tag;

// A field: its content stands from start up to end.
// Kept: two places and no range, since the reader goes on from `end`, and a range is not Copy.
#[derive(Clone, Copy)]
pub struct Field {
    pub start: usize,
    pub end: usize,
}

// The field of this tag that stands whole at a place, its length as the table says.
pub fn field_at(s: &[u8], at: usize, tag: Tag) -> Option<Field>
    ensures { result ≡ field_at s.now at (tag_number tag) }
{
    if s.len() < 3 || s.len() - 3 < at || s[at] != tag.into() {
        return None;
    }
    let start = at + 3;
    let n = number_at(s, at + 1, 2) as usize;
    if !tag.length_fits(n) || s.len() - start < n {
        return None;
    }
    Some(Field {
        start,
        end: start + n,
    })
}

// The bytes from a place up to another; none where the slice has no such part.
pub fn part_at(s: &[u8], start: usize, end: usize) -> &[u8]
    ensures { result.now ≡ part_at s.now start end }
{
    if end < start || s.len() < end {
        return &s[..0];
    }
    &s[start..end]
}
