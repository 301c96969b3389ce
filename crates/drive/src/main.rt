// A lossless group: everyone sends in turn, each frame arrives at all the others, and everything is taken.
// Standard input: n, W and the number of messages, as `3 4 100`. Prints a sum over what was taken.
#![tactic(auto)]

ghost use Rattle.std.specs.Prelude.{◌≡◌, ◌*◌, ◌<◌, ◌≤◌, length};
ghost use Rattle.handing.specs.Handing.{Gives};
ghost use Rattle.drive.specs.Run.{mixed, with_bytes, with_message, summed, shown, visit_of, unit_of, opened_units, unit_at, run_of};

use script::number;
use state::Opening;
use std::io;
use std::io::Read;
use unit::Unit;

// The sum, continued with a number.
fn mixed(sum: u32, x: usize) -> u32
    ensures { result ≡ mixed sum x }
{
    ((3 * (sum as usize) + x % 4294967296) % 4294967296) as u32
}

fn with_bytes(before: u32, s: &[u8]) -> u32
    ensures { result ≡ with_bytes before s.now }
{
    s.iter().fold(before, |sum, x| mixed(sum, *x as usize))
}

// The sum, continued with a message: its sender, its number, the length of its data, and the output that they stand in.
fn with_message(sum: u32, src: u8, seq: u32, len: usize, out: &[u8]) -> u32
    ensures { result ≡ with_message sum src seq len out.now }
{
    with_bytes(
        mixed(mixed(mixed(sum, src as usize), seq as usize), len),
        out,
    )
}

// The sum, continued with everything that the unit may show: at most as many messages as it has places.
fn all_taken(unit: &mut Unit, before: u32) -> u32
    ensures { summed result unit.new ≡ shown unit.old before }
{
    let mut sum = before;
    let mut out = [0u8; 16];
    let mut taken;
    (*unit, taken) = unit.take(&mut out);
    for count in 0..Unit::PLACES {
        let Ok(t) = taken else {
            return sum;
        };
        sum = with_message(sum, t.src, t.seq, t.len, &out);
        (*unit, taken) = unit.take(&mut out);
    }
    sum
}

// The unit sends the data, or the frame arrives there, and everything is taken: the sum, continued with it.
// Kept: an enum of the two steps would be chosen by the very test that is passed here, so it is no plainer than `sends`.
#[tactic(auto, unfolding(crate::specs::Run::visit_of))]
fn visited(unit: &mut Unit, sends: bool, text: &[u8], frame: &mut [u8], len: usize, sum: u32) -> u32
    requires { len ≤ length frame.old }
    ensures { Gives (visit_of unit.old sends text.now frame.old len sum) (summed result unit.new) frame.new }
{
    if sends {
        (*unit, _) = unit.send(text, frame);
    } else {
        (*unit, _) = unit.arrive(&frame[..len]);
    }
    all_taken(unit, sum)
}

// Unit `me` of a group: CID 1, first numbers 1; closed where there is no such unit.
fn opened_unit(me: u8, n: u8, w: u8) -> Unit
    ensures { result ≡ unit_of n w me }
{
    let (unit, _) = Unit::open(Opening {
        me,
        n,
        w,
        cid: 1,
        first: [1; 8],
    });
    unit
}

// Eight units, of which the first n are open.
fn opened(n: u8, w: u8) -> [Unit; Unit::MOST_UNITS]
    ensures { result ≡ opened_units n w 8 }
{
    let mut units = [opened_unit(0, n, w); Unit::MOST_UNITS];
    for k in 0..8 {
        units[k as usize] = opened_unit(k + 1, n, w);
    }
    units
}

// Where visit i is, both counted from 0: the visits of a message start at its sender and go round.
fn unit_at(i: usize, n: usize) -> usize
    requires { 1 ≤ n }
    ensures { (result ≡ unit_at n i) × (result < n) }
{
    (i / n + i % n) % n
}

// The sum over so many messages, each of which makes n visits.
fn run(n: u8, w: u8, messages: u32) -> u32
    requires { (1 ≤ n) × (n ≤ 8) }
    ensures { result ≡ (run_of n w (messages * n)).sum }
{
    let size = n as usize;
    let visits = (messages as usize) * size;
    let mut units = opened(n, w);
    let mut text = [0u8; 16];
    let mut frame = [0u8; Unit::MOST_FRAME];
    let mut sum = 0;
    for i in 0..visits {
        let m = i / size;
        let k = unit_at(i, size);
        text[m % 16] = (m % 256) as u8;
        sum = visited(
            &mut units[k],
            i % size == 0,
            &text,
            &mut frame,
            53 + 4 * size,
            sum,
        );
    }
    sum
}

fn main(rt: HostRuntime) -> io::Result<()> {
    let mut buffer = [0u8; 16];
    let end = rt.stdin().read(&mut buffer).unwrap_or(0);
    if end < 5 {
        return Ok(());
    }
    let Some(n) = number(&buffer[0..1]) else {
        return Ok(());
    };
    let Some(w) = number(&buffer[2..3]) else {
        return Ok(());
    };
    let Some(messages) = number(&buffer[4..end]) else {
        return Ok(());
    };
    if !(1..=8).contains(&n) {
        return Ok(());
    }
    let sum = run(n as u8, (w % 256) as u8, messages);
    println!(rt; "{}", sum)
}
