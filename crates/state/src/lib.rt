// What a unit holds in numbers: everything but ACK and data of its places, and the kept frames, which are lent.
#![tactic(auto)]

mod fresh;
mod soundness;

ghost use Rattle.std.specs.Prelude.{◌≡◌, ◌*◌};
ghost use Rattle.rules.specs.Maps.{between};
ghost use Rattle.answers.specs.Answers.{judged};
ghost use Rattle.state.specs.Opening.{opened_of};
ghost use Rattle.state.specs.Soundness.{low_in, sound_of, not_sound};
ghost use Rattle.state.specs.View.{free_places};

use answers::Refusal;
use lists;
use lists::Order;
use tables;

// How many units a group has, how wide its window is, and how many bytes of data a message has at most.
pub const LEAST_UNITS: usize = 2;

pub const MOST_UNITS: usize = 8;

pub const LEAST_WINDOW: usize = 2;

pub const MOST_WINDOW: usize = 4;

pub const MOST_DATA: usize = 48;

// The kept frame of number s is in slot s - minAL of the own index, and `kept` holds its length. `seqs` and `lens`
// hold number and data length of the message at each place.
// Kept: arrays side by side, indexed by place, since the functions that are lent them answer for slices of any length
// (`lists::settled`, docs/CONTRACTS.md), and no heap is a rule of the project.
#[derive(Clone, Copy)]
pub struct Core {
    pub me: u8,
    pub n: u8,
    pub w: u8,
    pub cid: u32,
    pub seq: u32,
    pub req: [u32; 8],
    pub heard: [u32; 8],
    pub buf: [u32; 8],
    pub al: [u32; 64],
    pub kept: [u8; 4],
    pub seqs: [u32; 128],
    pub lens: [u8; 128],
    pub order: Order,
}

// What a unit is opened with: its own index, how many units there are, the window, the group's number, and the first
// number of each unit.
#[derive(Clone, Copy)]
pub struct Opening {
    pub me: u8,
    pub n: u8,
    pub w: u8,
    pub cid: u32,
    pub first: [u32; 8],
}

// Opens a unit; out of range it is refused with 2, and the unit closed, all numbers 0.
pub fn opened_with(o: Opening) -> (Core, Result<(), Refusal>)
    ensures { result ≡ opened_of o }
{
    if fresh::can_open(o) {
        return (fresh::unit(o), Ok(()));
    }
    let closed = Opening {
        me: 0,
        n: 0,
        w: 0,
        cid: 0,
        first: [0u32; 8],
    };
    (fresh::unit(closed), Err(Refusal::CannotOpen))
}

// minAL of the own index.
#[tactic(auto, unfolding(crate::specs::Soundness::low_in))]
pub fn own_low(al: &[u32], me: u8, n: u8) -> u32
    ensures { result ≡ low_in al.now me n }
{
    tables::least_of(tables::row(al, me), n)
}

// k is a unit of a group of n.
#[tactic(auto, unfolding(rules::specs::Maps::between))]
pub fn is_unit(n: u8, k: u32) -> bool
    ensures { result ≡ between 1 n k }
{
    (1..=n as u32).contains(&k)
}

// How many places n senders have, 4W each.
fn places(w: u8, n: u8) -> u32
    ensures { result ≡ 4 * w * n }
{
    4 * (w as u32) * (n as u32)
}

// The number of free places.
#[tactic(auto, unfolding(crate::specs::View::free_places))]
pub fn free_places(c: Core) -> u32
    ensures { result ≡ free_places c }
{
    places(c.w, c.n).saturating_sub(lists::taken(c.order) as u32)
}

// Kept: c and acks as two parameters here and in handing and steps, since a rule of the project lends the large arrays and
// passes the small numbers by value; a struct of both would be a second unit.

// Refuses a unit that is not sound.
pub fn checked(c: Core, acks: &[u32]) -> Result<(), Refusal>
    ensures { result ≡ judged (not_sound c acks.now) tt }
{
    if sound(c, acks) {
        Ok(())
    } else {
        Err(Refusal::Unsound)
    }
}

// Whether the unit is sound.
#[tactic(auto, unfolding(crate::specs::Soundness::sound_of, rules::specs::Sound::ranges_fit, rules::specs::Maps::between))]
pub fn sound(c: Core, acks: &[u32]) -> bool
    ensures { result ≡ sound_of c acks.now }
{
    soundness::ranges_fit(c.me, c.n, c.w)
        && soundness::nexts_fit(&c)
        && tables::at(&c.req, c.me) == c.seq
        && soundness::window_fits(&c)
        && soundness::places_fit(&c, acks)
}
