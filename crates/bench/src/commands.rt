// What each command does with the group, and what it answers.
ghost use Rattle.std.specs.Prelude.{◌≡◌, ◌-◌, min, length, drop};
ghost use Rattle.rules.specs.Maps.{between};
ghost use Rattle.script.specs.Items.{sends, arrives, requests, takes};
ghost use Rattle.script.specs.Shown.{said};
ghost use Rattle.bench.specs.Commands.{Named, CanWrite, CanHear, CanAct, names_known, Acts};

use crate::desk::Desk;
use crate::reply::Reply;
use answers::answer;
use script::line::Line;
use unit::Unit;

// x is from 1 to most.
fn counted(x: u32, most: usize) -> bool
    ensures { result ≡ between 1 most x }
{
    (1..=most).contains(&(x as usize))
}

// There are n units and so many frames: the unit and the frame that a line names exist.
fn names(n: u8, count: usize, shown: Line) -> bool
    ensures { result ≡ names_known n count shown }
{
    match shown {
        Line::Send { unit, .. } => counted(unit, n as usize),
        Line::Arrive { unit, frame } => counted(unit, n as usize) && counted(frame, count),
        Line::Request { unit, .. } => counted(unit, n as usize),
        Line::Take { unit } => counted(unit, n as usize),
        Line::Group(_) => true,
    }
}

// A unit's number in 8 bits. One that does not fit counts as 255, which is no unit.
fn number_of(k: u32) -> u8
    ensures { result ≡ min k 255 }
{
    u8::try_from(k).unwrap_or(255)
}

// The last bytes of a text, so many of them; all where there are not so many.
fn last(text: &[u8], len: usize) -> &[u8]
    ensures { result.now ≡ drop (length text.now - len) text.now }
{
    &text[text.len().saturating_sub(len)..]
}

fn send(d: &mut Desk, u: u32, word: &[u8]) -> Reply
    requires { CanWrite d.old u }
    ensures { Acts d.old (sends u word.now) d.new result }
{
    let i = u as usize - 1;
    let mut bytes = [0u8; Unit::MOST_FRAME];
    let (unit, sent) = d.units[i].send(word, &mut bytes);
    d.units[i] = unit;
    d.keep(sent.map(|s| s.len), bytes);
    Reply::Answers(answer(&sent))
}

fn arrive(d: &mut Desk, u: u32, f: u32) -> Reply
    requires { CanHear d.old u f }
    ensures { Acts d.old (arrives u f) d.new result }
{
    let i = u as usize - 1;
    let frame = d.frames[f as usize - 1];
    let (unit, arrived) = d.units[i].arrive(&frame.bytes[..frame.len]);
    d.units[i] = unit;
    Reply::Answers(answer(&arrived))
}

fn request(d: &mut Desk, u: u32, k: u32) -> Reply
    requires { CanWrite d.old u }
    ensures { Acts d.old (requests u k) d.new result }
{
    let i = u as usize - 1;
    let mut bytes = [0u8; Unit::MOST_FRAME];
    let asked = d.units[i].request(number_of(k), &mut bytes);
    d.keep(asked, bytes);
    Reply::Answers(answer(&asked))
}

fn take(d: &mut Desk, u: u32) -> Reply
    requires { Named d.old u }
    ensures { Acts d.old (takes u) d.new result }
{
    let i = u as usize - 1;
    let mut word = [0u8; Unit::MOST_DATA];
    let (unit, taken) = d.units[i].take(&mut word);
    d.units[i] = unit;
    match taken {
        Err(refusal) => Reply::Answers(u32::from(refusal)),
        Ok(t) => Reply::Took {
            sender: t.src,
            number: t.seq,
            word,
            len: t.len,
        },
    }
}

// The command that a line shows; `text` is the line itself.
pub fn act(d: &mut Desk, shown: Option<Line>, text: &[u8]) -> Reply
    requires { CanAct d.old }
    ensures { Acts d.old (said shown text.now) d.new result }
{
    let Some(shown) = shown else {
        return Reply::Unknown;
    };
    if !names(d.n, d.count, shown) {
        return Reply::Unknown;
    }
    match shown {
        Line::Send { unit, len } => send(d, unit, last(text, len)),
        Line::Arrive { unit, frame } => arrive(d, unit, frame),
        Line::Request { unit, other } => request(d, unit, other),
        Line::Take { unit } => take(d, unit),
        Line::Group(_) => Reply::Unknown,
    }
}
