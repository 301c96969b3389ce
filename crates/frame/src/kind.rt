// The numbers of a frame that is well formed, at their places. All of it is inline, so that reading compiles to one function
// without calls, though both kinds go through `head_at`.
ghost use Rattle.std.specs.Prelude.{◌≡◌, true, ◌≤◌, length, get_or};
ghost use Rattle.rules.specs.Fields.{table, tags_of, fits};
ghost use Rattle.rules.specs.Message.{edition, decode};
ghost use Rattle.frame.specs.Acks.{AckFits};
ghost use Rattle.frame.specs.Frame.{frame_of, head_at};

use crate::number::{acks_at, number_at};
use crate::{Data, Frame, Head, Request};

// What frames of both kinds say, the length of ACK standing at a place: CID at 11, SRC at 18, and the numbers of ACK.
// None where one of these is 0.
// Kept: `any` and no `contains`, whose code for slices of any length would be called from both places.
#[inline(always)]
fn head_at(s: &[u8], at: usize) -> Option<Head>
    requires { (19 ≤ length s.now) × AckFits s.now at }
    ensures { result ≡ head_at s.now at }
{
    let n = number_at(s, at, 2) as usize / 4;
    let ack = acks_at(s, at + 2, n);
    if ack[..n].iter().any(|ack| *ack == 0) {
        return None;
    }
    Some(Head {
        cid: number_at(s, 11, 4),
        src: number_at(s, 18, 1),
        n,
        ack,
    })
}

// SEQ stands at 22, the length of ACK at 27, and BUF and the data after ACK. The last number is never a SEQ.
#[inline(always)]
pub fn read_data(s: &[u8]) -> Option<Frame>
    requires { (fits table (tags_of table 1) s.now ≡ true) × (get_or s.now 3 0 ≡ edition) × (get_or s.now 7 0 ≡ 1) }
    ensures { result ≡ frame_of (decode s.now) }
{
    let head = head_at(s, 27)?;
    let seq = number_at(s, 22, 4);
    if seq == 0 || seq == u32::MAX {
        return None;
    }
    let start = 37 + 4 * head.n;
    Some(Frame::Data(Data {
        head,
        seq,
        buf: number_at(s, start - 5, 2),
        start,
        len: s.len() - start,
    }))
}

// The length of ACK stands at 20, and LSRC and LSEQ after ACK.
#[inline(always)]
pub fn read_request(s: &[u8]) -> Option<Frame>
    requires { (fits table (tags_of table 2) s.now ≡ true) × (get_or s.now 3 0 ≡ edition) × (get_or s.now 7 0 ≡ 2) }
    ensures { result ≡ frame_of (decode s.now) }
{
    let head = head_at(s, 20)?;
    let lsrc = 25 + 4 * head.n;
    let lseq = number_at(s, lsrc + 4, 4);
    if lseq == 0 {
        return None;
    }
    Some(Frame::Request(Request {
        head,
        lsrc: number_at(s, lsrc, 1),
        lseq,
    }))
}
