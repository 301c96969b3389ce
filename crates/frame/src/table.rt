// The ten tags of 01: what reader and writer know of each stands here and nowhere else.
ghost use Rattle.std.specs.Prelude.{◌≡◌};
ghost use Rattle.rules.specs.Fields.{table, row_of};
ghost use Rattle.frame.specs.Table.{line_of, tag_number, code_of, kind_of, is_of, has, length_fits};

// What a frame is, by its number in tag 2.
#[derive(Clone, Copy, Debug, PartialEq, Eq)]
pub enum Kind {
    Data,
    Request,
}

// A number that no kind has.
#[derive(Clone, Copy, Debug, PartialEq, Eq)]
pub struct UnknownKind(pub u8);

impl From<Kind> for u8 {
    ghost from_gives = { λ kind code. code ≡ code_of kind };

    fn from(kind: Kind) -> u8 {
        match kind {
            Kind::Data => 1,
            Kind::Request => 2,
        }
    }
}

impl TryFrom<u8> for Kind {
    type Error = UnknownKind;

    ghost try_from_gives = { λ code kind. kind ≡ kind_of code };

    fn try_from(code: u8) -> Result<Kind, UnknownKind> {
        match code {
            1 => Ok(Kind::Data),
            2 => Ok(Kind::Request),
            _ => Err(UnknownKind(code)),
        }
    }
}

// The ten tags, by their numbers: the byte that a field begins with.
#[derive(Clone, Copy)]
pub enum Tag {
    Edition = 1,
    Kind,
    Cid,
    Src,
    Seq,
    Ack,
    Buf,
    Lsrc,
    Lseq,
    Data,
}

// In the order in which they stand in a frame.
pub const TAGS: [Tag; 10] = [
    Tag::Edition,
    Tag::Kind,
    Tag::Cid,
    Tag::Src,
    Tag::Seq,
    Tag::Ack,
    Tag::Buf,
    Tag::Lsrc,
    Tag::Lseq,
    Tag::Data,
];

impl From<Tag> for u8 {
    ghost from_gives = { λ tag number. number ≡ tag_number tag };

    fn from(tag: Tag) -> u8 {
        tag as u8
    }
}

// The content of a field is numbers of `width` bytes each; its length in bytes is from `least` to `greatest`; data
// messages have the field, requests have it.
// Kept: two flags, no plainer as one field: a set of kinds would be an enum of four names, Neither to Both.
#[derive(Clone, Copy)]
pub struct Row {
    pub width: u8,
    pub least: u8,
    pub greatest: u8,
    pub message: bool,
    pub request: bool,
}

const TABLE: [Row; 10] = [
    // 1: edition
    Row {
        width: 1,
        least: 1,
        greatest: 1,
        message: true,
        request: true,
    },
    // 2: kind
    Row {
        width: 1,
        least: 1,
        greatest: 1,
        message: true,
        request: true,
    },
    // 3: CID
    Row {
        width: 4,
        least: 4,
        greatest: 4,
        message: true,
        request: true,
    },
    // 4: SRC
    Row {
        width: 1,
        least: 1,
        greatest: 1,
        message: true,
        request: true,
    },
    // 5: SEQ
    Row {
        width: 4,
        least: 4,
        greatest: 4,
        message: true,
        request: false,
    },
    // 6: ACK
    Row {
        width: 4,
        least: 8,
        greatest: 32,
        message: true,
        request: true,
    },
    // 7: BUF
    Row {
        width: 2,
        least: 2,
        greatest: 2,
        message: true,
        request: false,
    },
    // 8: LSRC
    Row {
        width: 1,
        least: 1,
        greatest: 1,
        message: false,
        request: true,
    },
    // 9: LSEQ
    Row {
        width: 4,
        least: 4,
        greatest: 4,
        message: false,
        request: true,
    },
    // 10: data
    Row {
        width: 1,
        least: 0,
        greatest: 48,
        message: true,
        request: false,
    },
];

// The line of no kind.
const NONE: Row = Row {
    width: 1,
    least: 0,
    greatest: 0,
    message: false,
    request: false,
};

impl Row {
    // Frames of this kind have the field.
    pub fn is_of(self, kind: Kind) -> bool
        ensures { result ≡ is_of self kind }
    {
        match kind {
            Kind::Data => self.message,
            Kind::Request => self.request,
        }
    }
}

// The line of a tag; for tag 0 and past the table, the line of no kind.
// Kept: a Row and no Option, since row_of, has_tag and length_fits give an answer for every tag (docs/CONTRACTS.md).
pub fn row_of(tag: u8) -> Row
    ensures { result ≡ line_of (row_of table tag) }
{
    if tag == 0 {
        return NONE;
    }
    TABLE.get(tag as usize - 1).copied().unwrap_or(NONE)
}

impl Tag {
    // The line of the tag.
    pub fn row(self) -> Row
        ensures { result ≡ line_of (row_of table (tag_number self)) }
    {
        row_of(self.into())
    }

    // A field of the tag can be n bytes long.
    pub fn length_fits(self, n: usize) -> bool
        ensures { result ≡ length_fits (tag_number self) n }
    {
        length_fits(self.into(), n)
    }
}

// Frames of this kind have this tag.
// Kept: any number for the kind, since has_tag answers for each (docs/CONTRACTS.md); is_of takes a Kind.
pub fn has_tag(tag: u8, kind: u8) -> bool
    ensures { result ≡ has tag kind }
{
    match Kind::try_from(kind) {
        Ok(kind) => row_of(tag).is_of(kind),
        Err(_) => false,
    }
}

// A field of this tag can be n bytes long.
pub fn length_fits(tag: u8, n: usize) -> bool
    ensures { result ≡ length_fits tag n }
{
    let row = row_of(tag);
    let least = row.least as usize;
    let greatest = row.greatest as usize;
    least <= n && n <= greatest && n % row.width as usize == 0
}
