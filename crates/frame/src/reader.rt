// The field reader: it keeps the lent frame and its place in it. Its functions are thin: `field_at` and `part_at`, on the
// slice and numbers, do the work.
ghost use Rattle.std.specs.Prelude.{◌≡◌};
ghost use Rattle.rules.specs.Fields.{table, tags_of, fits};
ghost use Rattle.frame.specs.Table.{tag_number, code_of};
ghost use Rattle.frame.specs.Field.{field_at, part_at};
ghost use Rattle.frame.specs.Reader.{begun, next_of, after_of, part_of};

use crate::field::{Field, field_at, part_at};
use crate::table::{Kind, TAGS, Tag, has_tag};

#[derive(Clone, Copy)]
pub struct Reader<'a> {
    pub frame: &'a [u8],
    pub at: usize,
}

impl<'a> Reader<'a> {
    // A reader that stands at the start of a frame.
    fn new(frame: &'a [u8]) -> Reader<'a>
        ensures { result ≡ begun frame.entry }
    {
        Reader { frame, at: 0 }
    }

    // The field of this tag that stands at the reader's place.
    fn next(self, tag: Tag) -> Option<Field>
        ensures { result ≡ next_of self.entry (tag_number tag) }
    {
        field_at(self.frame, self.at, tag)
    }

    // The reader that stands after a field.
    fn after(self, f: Field) -> Reader<'a>
        ensures { result ≡ after_of self.entry f }
    {
        Reader {
            frame: self.frame,
            at: f.end,
        }
    }

    // A field's content, as a part of the lent frame.
    fn part(self, f: Field) -> &'a [u8]
        ensures { result.now ≡ part_of self.entry f }
    {
        part_at(self.frame, f.start, f.end)
    }
}

// The content of a field.
pub fn content(s: &[u8], f: Field) -> &[u8]
    ensures { result.now ≡ part_at s.now f.start f.end }
{
    Reader::new(s).part(f)
}

// The bytes are the fields of this kind, each once and in rising tag order, and nothing follows.
pub fn well_formed(s: &[u8], kind: Kind) -> bool
    ensures { result ≡ fits table (tags_of table (code_of kind)) s.now }
{
    let mut reader = Reader::new(s);
    for tag in TAGS {
        if has_tag(tag.into(), kind.into()) {
            let Some(field) = reader.next(tag) else {
                return false;
            };
            reader = reader.after(field);
        }
    }
    reader.at == s.len()
}
