// Writing frames, by the table of tags that the reader has.
#![tactic(auto)]

ghost use Rattle.std.specs.Prelude.{◌≡◌, ◌+◌, ◌*◌, take};
ghost use Rattle.answers.specs.Answers.{judged};
ghost use Rattle.framewrite.specs.Writing.{frame_checks, message_of, request_of, data_written, request_written, Wrote};

mod field;
mod fields;
mod number;

use answers::Refusal;
use field::count_fits;
use fields::{Singles, put_fields};
use frame::table::{Kind, Tag};

// The length of a frame with n numbers of ACK, so many bytes of data and `others` bytes beside, where `room` bytes hold
// it. Refused with NoSuchUnit where n is not 2 to 8, TooLong where the data are over 48 bytes, OutputTooShort.
fn length_of(others: u8, n: usize, text_len: usize, room: usize) -> Result<usize, Refusal>
    ensures { result ≡ judged (frame_checks others n text_len room) (others + 4 * n + text_len) }
{
    if !count_fits(n) {
        return Err(Refusal::NoSuchUnit);
    }
    if !Tag::Data.length_fits(text_len) {
        return Err(Refusal::TooLong);
    }
    let len = usize::from(others) + 4 * n + text_len;
    if room < len {
        return Err(Refusal::OutputTooShort);
    }
    Ok(len)
}

// Kept: n beside the eight numbers, since the contract answers for every n, also one past 8 (docs/CONTRACTS.md).

// The frame of a data message, written to the front of the output, and its length. Refused with NoSuchUnit where n is not
// 2 to 8, TooLong where the data are over 48 bytes, OutputTooShort where it does not fit. The first n of ack count.
pub fn write_data(
    out: &mut [u8],
    cid: u32,
    src: u8,
    seq: u32,
    ack: &[u32; 8],
    n: usize,
    buf: u16,
    text: &[u8],
) -> Result<usize, Refusal>
    ensures { Wrote (data_written n (message_of cid src seq (take n ack.now) buf text.now) out.old) result out.new }
{
    let len = length_of(37, n, text.len(), out.len())?;
    let m = Singles {
        kind: Kind::Data,
        cid,
        src,
        seq,
        buf,
        lsrc: 0,
        lseq: 0,
    };
    put_fields(out, m, &ack[..n], text);
    Ok(len)
}

// The frame of a request, in the same way.
pub fn write_request(
    out: &mut [u8],
    cid: u32,
    src: u8,
    ack: &[u32; 8],
    n: usize,
    lsrc: u8,
    lseq: u32,
) -> Result<usize, Refusal>
    ensures { Wrote (request_written n (request_of cid src (take n ack.now) lsrc lseq) out.old) result out.new }
{
    let len = length_of(33, n, 0, out.len())?;
    let m = Singles {
        kind: Kind::Request,
        cid,
        src,
        seq: 0,
        buf: 0,
        lsrc,
        lseq,
    };
    put_fields(out, m, &ack[..n], b"");
    Ok(len)
}
