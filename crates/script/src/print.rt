// The lines that are printed, written to lent output. Each answers how many bytes it wrote: None where the output is too
// short, which is then unchanged.
ghost use Rattle.std.specs.Prelude.{◌≡◌, [], ◌∷◌, ◌++◌, ◌+◌, ◌≤◌, length};
ghost use Rattle.script.specs.Desk.{unknown, answers, took};
ghost use Rattle.script.specs.Print.{decimal, joined, group_line, no_group_line, reply_items, reply_line};
ghost use Rattle.script.specs.Written.{Put, Wrote};

use itoa::Buffer;
use tables;

// How many digits x has.
fn places(x: u32) -> usize
    ensures { (result ≡ length (decimal x)) × (result ≤ 10) }
{
    Buffer::new().format(x).len()
}

// Puts x and the byte that ends it, and answers the next place.
fn put_number(out: &mut [u8], at: usize, x: u32, end: u8) -> usize
    requires { at + length (decimal x) + 1 ≤ length out.old }
    ensures { Put out.old at (decimal x ++ (end ∷ [])) result out.new }
{
    let mut digits = Buffer::new();
    let stop = put(out, at, digits.format(x).as_bytes());
    put(out, stop, &[end])
}

// Puts all of s, and answers the next place.
// Kept: output and place go together through three functions. A struct of the two holds a lent slice, and its methods would
// say of `old` and `new` of a field what `Put` says of them here.
fn put(out: &mut [u8], at: usize, s: &[u8]) -> usize
    requires { at + length s.now ≤ length out.old }
    ensures { Put out.old at s.now result out.new }
{
    tables::put(out, at, s);
    at + s.len()
}

pub fn group_line(out: &mut [u8], n: u32, w: u32) -> Option<usize>
    ensures { Wrote out.old (group_line n w) result out.new }
{
    if out.len() < places(n) + places(w) + 8 {
        return None;
    }
    let a = put(out, 0, b"group ");
    let b = put_number(out, a, n, b' ');
    Some(put_number(out, b, w, b'\n'))
}

pub fn no_group_line(out: &mut [u8]) -> Option<usize>
    ensures { Wrote out.old no_group_line result out.new }
{
    if out.len() < 8 {
        return None;
    }
    Some(put(out, 0, b"group ?\n"))
}

// Kept: an answer number, since that is what is printed, and its contract speaks of every number.
pub fn answer_line(out: &mut [u8], line: u32, answer: u32) -> Option<usize>
    ensures { Wrote out.old (reply_line line (answers answer)) result out.new }
{
    if out.len() < places(line) + places(answer) + 2 {
        return None;
    }
    let a = put_number(out, 0, line, b' ');
    Some(put_number(out, a, answer, b'\n'))
}

pub fn unknown_line(out: &mut [u8], line: u32) -> Option<usize>
    ensures { Wrote out.old (reply_line line unknown) result out.new }
{
    if out.len() < places(line) + 3 {
        return None;
    }
    let a = put_number(out, 0, line, b' ');
    Some(put(out, a, b"?\n"))
}

// What a successful take adds to the line number: its answer, sender, number and word.
fn put_taken(out: &mut [u8], at: usize, sender: u32, number: u32, word: &[u8]) -> usize
    requires { at + length (joined (reply_items (took sender number word.now))) ≤ length out.old }
    ensures { Put out.old at (joined (reply_items (took sender number word.now))) result out.new }
{
    let a = put(out, at, b"0 ");
    let b = put_number(out, a, sender, b' ');
    let c = put_number(out, b, number, b' ');
    let d = put(out, c, word);
    put(out, d, b"\n")
}

pub fn taken_line(out: &mut [u8], line: u32, sender: u32, number: u32, word: &[u8]) -> Option<usize>
    ensures { Wrote out.old (reply_line line (took sender number word.now)) result out.new }
{
    let front = places(line) + places(sender) + places(number) + 6;
    if out.len() < front || out.len() - front < word.len() {
        return None;
    }
    let a = put_number(out, 0, line, b' ');
    Some(put_taken(out, a, sender, number, word))
}
