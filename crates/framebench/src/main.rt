// Writes and reads back as many data frames as standard input says, and prints the sum of what was read.
#![tactic(auto)]

ghost use Rattle.std.specs.Prelude.{◌≡◌, ◌+◌, ◌<◌};
ghost use Rattle.frame.specs.Frame.{data_of};
ghost use Rattle.framebench.specs.Rounds.{message_of, sum_of, total_of};

use frame::{Data, Frame, read};
use framewrite::write_data;
use script::number;
use std::io;
use std::io::Read;

// CID, SRC, SEQ, n, the first ACK, BUF and the length of the data, added modulo 2^32.
fn sum(d: Data) -> u32
    requires { d.head.n + d.len < 4294967296 }
    ensures { result ≡ sum_of d }
{
    let head = d.head;
    let a = head.cid.wrapping_add(head.src);
    let b = d.seq.wrapping_add(head.ack[0]);
    let c = d.buf.wrapping_add((head.n + d.len) as u32);
    a.wrapping_add(b.wrapping_add(c))
}

// The sum of message i, written and read back.
fn back(i: u32) -> u32
    ensures { result ≡ sum_of (data_of (message_of i)) }
{
    let seq = i % 4294967294 + 1;
    let n = (i % 7) as usize + 2;
    let text = [b'x'; 48];
    let ack = [seq; 8];
    let mut out = [0u8; 117];
    let Ok(len) = write_data(
        &mut out,
        i,
        (i % 256) as u8,
        seq,
        &ack,
        n,
        (i % 65536) as u16,
        &text[..(i % 49) as usize],
    ) else {
        return 0;
    };
    match read(&out[..len]) {
        Some(Frame::Data(data)) => sum(data),
        Some(Frame::Request(_)) => 0,
        None => 0,
    }
}

fn total(rounds: u32) -> u32
    ensures { result ≡ total_of rounds }
{
    let mut total: u32 = 0;
    for i in 0..rounds {
        total = total.wrapping_add(back(i));
    }
    total
}

fn main(rt: HostRuntime) -> io::Result<()> {
    let mut buffer = [0u8; 16];
    let n = rt.stdin().read(&mut buffer).unwrap_or(0);
    let Some(rounds) = number(&buffer[..n]) else {
        return Ok(());
    };
    println!(rt; "{}", total(rounds))
}
