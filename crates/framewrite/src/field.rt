// House fields written to a slice of bytes, their lengths by the table.
ghost use Rattle.std.specs.Prelude.{◌∷◌, ◌≡◌, ◌+◌, ◌≤◌, ◌<◌, length};
ghost use Rattle.std.proofs.lemmas.List.Edits.{sets};
ghost use Rattle.rules.specs.Bytes.{bytes};
ghost use Rattle.rules.specs.Maps.{between};
ghost use Rattle.frame.specs.Table.{tag_number};
ghost use Rattle.framewrite.specs.Field.{FieldRoom, FieldWritten};

use crate::number::{put_number, put_numbers};
use frame::table::Tag;
use tables;

// ACK can have n numbers.
pub fn count_fits(n: usize) -> bool
    ensures { result ≡ between 2 8 n }
{
    let row = Tag::Ack.row();
    let width = row.width as usize;
    let most = row.greatest as usize / width;
    n <= most && Tag::Ack.length_fits(width * n)
}

// Writes a tag, and the length of its content.
fn put_front(d: &mut [u8], at: usize, tag: Tag, n: usize)
    requires { (n < 65536) × (at + 3 ≤ length d.old) }
    ensures { d.new ≡ sets d.old at (tag_number tag ∷ bytes 2 n) }
{
    d[at] = tag.into();
    put_number(d, at + 1, 2, n as u32);
}

// Writes a field of numbers, and gives the place after it.
pub fn put_field(d: &mut [u8], at: usize, tag: Tag, xs: &[u32]) -> usize
    requires { FieldRoom (tag_number tag) xs.now at d.old }
    ensures { FieldWritten (tag_number tag) xs.now at d.old result d.new }
{
    let row = tag.row();
    let w = row.width as usize;
    let n = w * xs.len();
    put_front(d, at, tag, n);
    put_numbers(d, at + 3, w, xs);
    at + 3 + n
}

// Writes the data field, and gives the place after it.
// Kept: beside put_field, no plainer as one function. Data are copied whole; as numbers of a width they would go one by one
// through a trait of u8 and u32.
pub fn put_text(d: &mut [u8], at: usize, text: &[u8]) -> usize
    requires { FieldRoom 10 text.now at d.old }
    ensures { FieldWritten 10 text.now at d.old result d.new }
{
    let n = text.len();
    put_front(d, at, Tag::Data, n);
    tables::put(d, at + 3, text);
    at + 3 + n
}
