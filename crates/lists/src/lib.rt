// The taken places of a unit in order, and what pre-acknowledging, confirming, accepting and taking do to the order.
// Place number 16 (j - 1) + slot is a place of sender j. Messages stay put; only place numbers move.
#![tactic(auto)]

mod confirm;
mod held;
mod preack;

ghost use Rattle.std.specs.Prelude.{◌≡◌, [], ◌∷◌, ◌++◌, length, drop, ◌-◌};
ghost use Rattle.rules.specs.Maps.{listed};
ghost use Rattle.lists.specs.Order.{is_of, only, total, entry, waitings, takens, slots_of, free_of, with_last, without_first};
ghost use Rattle.lists.specs.Settle.{settled_of};

use held::Held;
use preack::Said;
use tables;

// PAL, and the taken places: the confirmed ones, then the ordered, then the waiting.
// Kept: an array with counts beside it, since `taken`, `with_last` and `settled` answer for counts past 128 too
// (docs/CONTRACTS.md), and no heap is a rule of the project.
#[derive(Clone, Copy)]
pub struct Order {
    pub pal: [u32; 64],
    pub list: [u8; 128],
    pub confirmed: u8,
    pub ordered: u8,
    pub waiting: u8,
}

// How many places are taken.
pub fn taken(o: Order) -> usize
    ensures { result ≡ total o }
{
    (o.confirmed as usize) + (o.ordered as usize) + (o.waiting as usize)
}

// How many of the places from index start up to but not including end are sender j's.
fn count_of(o: Order, j: u8, start: usize, end: usize) -> usize
    ensures { result ≡ length (only (is_of j) (listed start (end - start) (entry o))) }
{
    let mut m = 0;
    for q in start..end {
        if tables::get_or(&o.list, q, 0) / 16 + 1 == j {
            m += 1;
        }
    }
    m
}

// How many places of sender j are taken.
pub fn taken_of(o: Order, j: u8) -> usize
    ensures { result ≡ length (only (is_of j) (takens o)) }
{
    count_of(o, j, 0, taken(o))
}

// How many of sender j's messages wait.
pub fn waiting_of(o: Order, j: u8) -> usize
    ensures { result ≡ length (only (is_of j) (waitings o)) }
{
    let start = (o.confirmed as usize) + (o.ordered as usize);
    count_of(o, j, start, taken(o))
}

// Which of the sixteen slots of sender j are taken.
fn slots(o: Order, j: u8) -> [bool; 16]
    ensures { result ≡ slots_of o j }
{
    let mut marks = [false; 16];
    for q in 0..taken(o) {
        let p = tables::get_or(&o.list, q, 0);
        if p / 16 + 1 == j {
            marks[(p % 16) as usize] = true;
        }
    }
    marks
}

// The first of sender j's slots 0 to most - 1 that is free; most where none is.
// Kept: a number and no Option, since steps counts a place from it on, also where none is free (`free_place`, its contract).
pub fn free_slot(o: Order, j: u8, most: u8) -> u8
    ensures { result ≡ free_of o j most }
{
    let marks = slots(o, j);
    for k in 0..most {
        if !tables::get_or(&marks, k as usize, false) {
            return k;
        }
    }
    most
}

// Place p waits, behind all others.
#[tactic(auto, unfolding(crate::specs::Order::with_last))]
pub fn with_last(o: Order, p: u8) -> Order
    ensures { result ≡ with_last o p }
{
    let end = taken(o);
    if 128 <= end {
        return o;
    }
    let mut r = o;
    r.list[end] = p;
    r.waiting += 1;
    r
}

// Each entry moves down by one, and a 0 comes last.
fn shifted(list: [u8; 128]) -> [u8; 128]
    ensures { result ≡ drop 1 list ++ (0 ∷ []) }
{
    let mut l = list;
    l.copy_within(1.., 0);
    l[127] = 0;
    l
}

// Without the oldest confirmed place.
#[tactic(auto, unfolding(crate::specs::Order::without_first))]
pub fn without_first(o: Order) -> Order
    ensures { result ≡ without_first o }
{
    if o.confirmed == 0 {
        return o;
    }
    let rest = shifted(o.list);
    Order {
        list: rest,
        confirmed: o.confirmed - 1,
        ..o
    }
}

// Pre-acknowledges and confirms what can be. An order that says it has more places than there are is left alone.
#[tactic(auto, unfolding(crate::specs::Settle::settled_of))]
pub fn settled<'a>(o: Order, al: &'a [u32], seqs: &'a [u32], acks: &'a [u32], n: u8) -> Order
    ensures { result ≡ settled_of o al.now seqs.now acks.now n }
{
    if 128 < taken(o) {
        return o;
    }
    let said = Said { seqs, acks };
    let p = said.all(Held { order: o }, al, n);
    confirm::all(p, seqs, n)
}
