// Calls of the unit as bytes: reads them from standard input, makes them on eight units, and prints what each gave
// (docs/REPLAY.md).
#![tactic(auto)]

mod calls;
mod changes;
mod kinds;
mod record;

ghost use Rattle.std.specs.Prelude.{◌≡◌, ◌+◌, ◌*◌, ◌≤◌, length, replicate};
ghost use Rattle.handing.specs.Handing.{Gives};
ghost use Rattle.replay.specs.Run.{closed_unit, blank, answered_of, run_of};

use answers::answer;
use record::head;
use state::Opening;
use std::io;
use std::io::{Read, Write};
use tables;
use unit::Unit;

const CALL: usize = 208;

const REPLY: usize = 272;

// How many calls are read at once: the units are moved once for all of them.
const PART: usize = 64;

// Eight closed units.
fn closed() -> [Unit; Unit::MOST_UNITS]
    ensures { result ≡ replicate 8 closed_unit }
{
    let (none, _) = Unit::open(Opening {
        me: 0,
        n: 0,
        w: 0,
        cid: 0,
        first: [0u32; 8],
    });
    [none; Unit::MOST_UNITS]
}

// The output before a call.
#[tactic(auto, unfolding(crate::specs::Run::blank))]
fn blank() -> [u8; 256]
    ensures { result ≡ blank }
{
    [165u8; 256]
}

// The call of a record on a unit: its reply goes to the output from a place on.
fn answered(u: &mut Unit, s: &[u8], out: &mut [u8], at: usize)
    requires { (208 ≤ length s.now) × (at + 272 ≤ length out.old) }
    ensures { Gives (answered_of u.old s.now out.old at) u.new out.new }
{
    let mut lent = blank();
    let room = tables::get_or(s, 6, 0) as usize;
    let given = calls::make(u, s, &mut lent[..room]);
    let (a, b, c) = given.unwrap_or((0, 0, 0));
    let front = head(answer(&given), a, b, c);
    tables::put(out, at, &front);
    tables::put(out, at + 16, &lent);
}

// The first records of the input, so many of them: the units after them, and their replies.
fn run(units: &mut [Unit; Unit::MOST_UNITS], input: &[u8], records: usize, out: &mut [u8])
    requires { (208 * records ≤ length input.now) × (272 * records ≤ length out.old) }
    ensures { Gives (run_of units.old input.now out.old records) units.new out.new }
{
    for i in 0..records {
        let from = CALL * i;
        let k = (tables::get_or(input, from + 1, 0) % 8) as usize;
        answered(&mut units[k], &input[from..from + CALL], out, REPLY * i);
    }
}

// Reads until the bytes are full, the input ends or a read fails, and says how many bytes stand at their start then.
// Kept: `done` is no index that counts up, but what the reads gave so far; a `for` would count reads beside it.
fn read_full(rt: &HostRuntime, bytes: &mut [u8]) -> usize
    ensures { result ≤ length bytes.new }
{
    let mut done = 0;
    while done < bytes.len() {
        let n = rt.stdin().read(&mut bytes[done..]).unwrap_or(0);
        if n == 0 {
            break;
        }
        done += n;
    }
    done
}

// A proved loop has to end, and nothing says that the input does: the count is one that no run uses up.
fn main(rt: HostRuntime) -> io::Result<()> {
    let mut units = closed();
    let mut input = [0u8; CALL * PART];
    let mut out = [0u8; REPLY * PART];
    for _ in 0..u64::MAX {
        let records = read_full(&rt, &mut input) / CALL;
        run(&mut units, &input, records, &mut out);
        let end = REPLY * records;
        let is_written = rt.stdout().write_all(&out[..end]).is_ok();
        if !is_written || records < PART {
            return Ok(());
        }
    }
    Ok(())
}
