// The fields of a message, one tag of the table after the other.
ghost use Rattle.std.specs.Prelude.{◌≡◌};
ghost use Rattle.std.proofs.lemmas.List.Edits.{sets};
ghost use Rattle.frame.specs.Table.{tag_number};
ghost use Rattle.framewrite.specs.Field.{FieldRoom, FieldWritten};
ghost use Rattle.framewrite.specs.Fields.{number_of, content_of, FieldsRoom, fields_of};

use crate::field::{put_field, put_text};
use frame::table::{Kind, TAGS, Tag, has_tag};

// The numbers of a message that stand alone in their fields; what the kind lacks is not read.
// Kept: one struct for both kinds, since the fields are written by tag, and a tag that the kind lacks never comes up.
#[derive(Clone, Copy)]
pub struct Singles {
    pub kind: Kind,
    pub cid: u32,
    pub src: u8,
    pub seq: u32,
    pub buf: u16,
    pub lsrc: u8,
    pub lseq: u32,
}

// The number that stands alone in the field of a tag.
fn number_of(m: Singles, tag: Tag) -> u32
    ensures { result ≡ number_of m (tag_number tag) }
{
    match tag {
        Tag::Edition => 1,
        Tag::Kind => u32::from(u8::from(m.kind)),
        Tag::Cid => m.cid,
        Tag::Src => u32::from(m.src),
        Tag::Seq => m.seq,
        Tag::Buf => u32::from(m.buf),
        Tag::Lsrc => u32::from(m.lsrc),
        _ => m.lseq,
    }
}

// Writes the field of a tag, and gives the place after it.
fn put_tag(d: &mut [u8], at: usize, tag: Tag, m: Singles, ack: &[u32], text: &[u8]) -> usize
    requires { FieldRoom (tag_number tag) (content_of m ack.now text.now (tag_number tag)) at d.old }
    ensures { FieldWritten (tag_number tag) (content_of m ack.now text.now (tag_number tag)) at d.old result d.new }
{
    match tag {
        Tag::Ack => put_field(d, at, tag, ack),
        Tag::Data => put_text(d, at, text),
        _ => {
            let one = [number_of(m, tag)];
            put_field(d, at, tag, &one)
        }
    }
}

// Writes the fields of the kind in rising tag order.
pub fn put_fields(d: &mut [u8], m: Singles, ack: &[u32], text: &[u8])
    requires { FieldsRoom m ack.now text.now d.old }
    ensures { d.new ≡ sets d.old 0 (fields_of m ack.now text.now) }
{
    let mut at = 0;
    for tag in TAGS {
        if has_tag(tag.into(), m.kind.into()) {
            at = put_tag(d, at, tag, m, ack, text);
        }
    }
}
