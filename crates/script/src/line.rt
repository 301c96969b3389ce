// A line of a script, read.
ghost use Rattle.std.specs.Prelude.{◌≡◌, [], ◌∷◌};
ghost use Rattle.script.specs.Items.{items, of_items, of_two, of_three, command};
ghost use Rattle.script.specs.Script.{in_range};
ghost use Rattle.script.specs.Shown.{shown, of_numbers, group_in};

use crate::{bytes, item};

// The most bytes of a line, without its line feed.
pub const LONGEST: usize = 80;

// A number that passes 32 bits counts as 4,294,967,295, which is no unit and no frame.
#[derive(Clone, Copy)]
pub enum Line {
    Group(Group),
    // The word is the last len bytes of the line. Kept: its length, since a slice would hold the line that `Collector` keeps.
    Send { unit: u32, len: usize },
    Arrive { unit: u32, frame: u32 },
    Request { unit: u32, other: u32 },
    Take { unit: u32 },
}

// A group of n units with window w.
#[derive(Clone, Copy)]
pub struct Group {
    pub n: u32,
    pub w: u32,
}

// None where the line is unreadable.
pub fn read(s: &[u8]) -> Option<Line>
    ensures { result ≡ shown (command s.now) }
{
    if LONGEST < s.len() {
        return None;
    }
    if bytes::find(s, b' ') != Some(1) {
        return None;
    }
    after_letter(s[0], &s[2..])
}

// The line of letter c and the items in s.
fn after_letter(c: u8, s: &[u8]) -> Option<Line>
    ensures { result ≡ shown (of_items ((c ∷ []) ∷ items s.now)) }
{
    match bytes::find(s, b' ') {
        None => of_two(c, item::number(s)?),
        Some(e) => of_three(c, item::number(&s[..e])?, &s[e + 1..]),
    }
}

// Kept: c is a letter, here and below, since that is what is read; the commands are `Line`.
fn of_two(c: u8, u: u32) -> Option<Line>
    ensures { result ≡ shown (of_two c u) }
{
    (c == b'T').then_some(Line::Take { unit: u })
}

fn of_three(c: u8, u: u32, z: &[u8]) -> Option<Line>
    ensures { result ≡ shown (of_three c u z.now) }
{
    if c == b'S' {
        return item::is_word(z).then_some(Line::Send {
            unit: u,
            len: z.len(),
        });
    }
    numbered(c, u, item::number(z)?)
}

// The line of letter c and two numbers.
fn numbered(c: u8, u: u32, x: u32) -> Option<Line>
    ensures { result ≡ of_numbers c u x }
{
    match c {
        b'G' => Some(Line::Group(Group { n: u, w: x })),
        b'A' => Some(Line::Arrive { unit: u, frame: x }),
        b'R' => Some(Line::Request { unit: u, other: x }),
        _ => None,
    }
}

fn in_range(n: u32, w: u32) -> bool
    ensures { result ≡ in_range n w }
{
    (2..=3).contains(&n) && (2..=4).contains(&w)
}

// The group that a first line names.
pub fn group_of(l: Option<Line>) -> Option<Group>
    ensures { result ≡ group_in l }
{
    let Line::Group(g) = l? else {
        return None;
    };
    in_range(g.n, g.w).then_some(g)
}
