// The reader for C hosts (include/co_frame.h), which the crate frame_c exports.
ghost use Rattle.std.specs.Prelude.{◌≡◌, ◌≤◌, length};
ghost use Rattle.std.proofs.lemmas.List.Edits.{sets};
ghost use Rattle.frame.specs.Table.{code_of};
ghost use Rattle.frame.specs.Export.{eighteen, handed, Exported};

use crate::table::Kind;
use crate::{Frame, Head, read};
use answers::Refusal;

// Stores the 18 numbers of a frame: SEQ stands before n, and five numbers after ACK.
fn put_numbers(out: &mut [u64], kind: Kind, head: Head, seq: u32, after: &[u64; 5])
    requires { 18 ≤ length out.old }
    ensures { out.new ≡ sets out.old 0 (eighteen (code_of kind) head seq after.now) }
{
    let code = u8::from(kind);
    let before = [
        u64::from(code),
        u64::from(head.cid),
        u64::from(head.src),
        u64::from(seq),
        head.n as u64,
    ];
    out[..5].copy_from_slice(&before);
    for (k, ack) in head.ack.iter().enumerate() {
        out[5 + k] = u64::from(*ack);
    }
    out[13..18].copy_from_slice(after);
}

// Stores the 18 numbers of a frame, 0 for what its kind lacks.
fn hand_out(out: &mut [u64], frame: Frame)
    requires { 18 ≤ length out.old }
    ensures { out.new ≡ sets out.old 0 (handed frame) }
{
    match frame {
        Frame::Data(data) => {
            let after = [
                u64::from(data.buf),
                0,
                0,
                data.start as u64,
                data.len as u64,
            ];
            put_numbers(out, Kind::Data, data.head, data.seq, &after);
        }
        Frame::Request(request) => {
            let after = [0, u64::from(request.lsrc), u64::from(request.lseq), 0, 0];
            put_numbers(out, Kind::Request, request.head, 0, &after);
        }
    }
}

// Kept: answer numbers, since C calls it (the C interface).
// Reads a frame: 0 and the 18 numbers; 3 where it is no frame; 16 where `numbers` has no room for 18.
pub fn co_read_frame(frame: &[u8], numbers: &mut [u64]) -> u32
    ensures { Exported frame.now numbers.old result numbers.new }
{
    let Some(frame) = read(frame) else {
        return u32::from(Refusal::NotAFrame);
    };
    if numbers.len() < 18 {
        return u32::from(Refusal::OutputTooShort);
    }
    hand_out(numbers, frame);
    0
}
