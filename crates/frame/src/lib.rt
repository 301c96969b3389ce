// Reading frames: the table of tags, the fields, the numbers in them and the data as a part of the caller's frame.
#![tactic(auto)]

ghost use Rattle.std.specs.Prelude.{◌≡◌};
ghost use Rattle.rules.specs.Message.{decode};
ghost use Rattle.frame.specs.Frame.{frame_of, payload_of};

mod export;
mod field;
mod kind;
mod number;
mod reader;
pub mod table;

pub use export::co_read_frame;
use field::Field;
use kind::{read_data, read_request};
use reader::{content, well_formed};
use table::Kind;

// What frames of both kinds say: CID, SRC, and ACK: n of the eight, the others 0.
// Kept: n beside the eight, since there is no heap (a rule of the project) and C is handed all eight (the C interface).
#[derive(Clone, Copy)]
pub struct Head {
    pub cid: u32,
    pub src: u32,
    pub n: usize,
    pub ack: [u32; 8],
}

// A message. Its data are `len` bytes of the frame from `start` on. Kept: places and no slice, since C is handed the two
// numbers (the C interface), and `payload` gives the slice.
#[derive(Clone, Copy)]
pub struct Data {
    pub head: Head,
    pub seq: u32,
    pub buf: u32,
    pub start: usize,
    pub len: usize,
}

// A request for messages of unit LSRC: those before LSEQ that the sender's ACK says it lacks.
#[derive(Clone, Copy)]
pub struct Request {
    pub head: Head,
    pub lsrc: u32,
    pub lseq: u32,
}

// What a frame says.
#[derive(Clone, Copy)]
pub enum Frame {
    Data(Data),
    Request(Request),
}

// What the bytes say as a frame of 01; none where they are no frame.
pub fn read(s: &[u8]) -> Option<Frame>
    ensures { result ≡ frame_of (decode s.now) }
{
    if s.len() < 8 {
        return None;
    }
    let kind = Kind::try_from(s[7]).ok()?;
    if !well_formed(s, kind) || s[3] != 1 {
        return None;
    }
    match kind {
        Kind::Data => read_data(s),
        Kind::Request => read_request(s),
    }
}

// The data of a data frame, as that part of the caller's frame; empty where there is no frame and for a request.
pub fn payload(s: &[u8]) -> &[u8]
    ensures { result.now ≡ payload_of (decode s.now) }
{
    match read(s) {
        Some(Frame::Data(data)) => content(
            s,
            Field {
                start: data.start,
                end: s.len(),
            },
        ),
        Some(Frame::Request(_)) => &s[..0],
        None => &s[..0],
    }
}
