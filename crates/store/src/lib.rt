// What accepting and keeping a message does to a unit's numbers and arrays.
#![tactic(auto)]

pub mod arrays;

ghost use Rattle.std.specs.Prelude.{◌≡◌};
ghost use Rattle.store.specs.Store.{kept_slot, column_stored, numbers_stored, place_stored, stored_of, keeping_of, settled_of};

use lists;
use state::{Core, own_low};
use tables;

// A message to store at a place: the sender follows from the place, and `len` is the length of its data.
#[derive(Clone, Copy)]
pub struct Accepting {
    pub place: u8,
    pub seq: u32,
    pub ack: [u32; 8],
    pub buf: u32,
    pub len: u8,
}

// How many kept frames are gone, and the numbers then.
#[derive(Clone, Copy)]
pub struct Next {
    pub gone: u32,
    pub core: Core,
}

// The slot of the frame to keep next.
#[tactic(auto, unfolding(crate::specs::Store::kept_slot))]
pub fn kept_slot(c: Core) -> u32
    ensures { result ≡ kept_slot c }
{
    c.seq.saturating_sub(own_low(&c.al, c.me, c.n))
}

// With column j of AL; kept lengths start at minAL of the own index.
#[tactic(auto, unfolding(crate::specs::Store::column_stored))]
fn column_stored(c: Core, j: u8, ack: [u32; 8]) -> Next
    ensures { result ≡ column_stored c j ack }
{
    let old = own_low(&c.al, c.me, c.n);
    let al = tables::with_column(c.al, j, &ack);
    let gone = own_low(&al, c.me, c.n).saturating_sub(old);
    let mut kept = c.kept;
    arrays::move_down(&mut kept, gone as usize);
    let core = Core { al, kept, ..c };
    Next { gone, core }
}

// With REQ_j, BUF_j and HEARD_j.
#[tactic(auto, unfolding(crate::specs::Store::numbers_stored))]
fn numbers_stored(c: Core, j: u8, next: u32, buf: u32) -> Core
    ensures { result ≡ numbers_stored c j next buf }
{
    Core {
        req: tables::with(c.req, j, next),
        heard: tables::with(c.heard, j, tables::at(&c.heard, j).max(next)),
        buf: tables::with(c.buf, j, buf),
        ..c
    }
}

// With number and data length of the message at the place, which waits behind all others.
#[tactic(auto, unfolding(crate::specs::Store::place_stored))]
fn place_stored(c: Core, place: u8, seq: u32, len: u8) -> Core
    ensures { result ≡ place_stored c place seq len }
{
    let mut seqs = c.seqs;
    let mut lens = c.lens;
    let p = place as usize;
    if p < 128 {
        seqs[p] = seq;
        lens[p] = len;
    }
    let order = lists::with_last(c.order, place);
    Core {
        seqs,
        lens,
        order,
        ..c
    }
}

// Accepts a message.
#[tactic(auto, unfolding(crate::specs::Store::stored_of))]
pub fn stored(c: Core, m: Accepting) -> Next
    ensures { result ≡ stored_of c m }
{
    let j = m.place / 16 + 1;
    let s = column_stored(c, j, m.ack);
    let e = numbers_stored(s.core, j, tables::next(m.seq), m.buf);
    Next {
        core: place_stored(e, m.place, m.seq, m.len),
        ..s
    }
}

// Keeps a frame of this length.
#[tactic(auto, unfolding(crate::specs::Store::keeping_of))]
pub fn keeping(c: Core, len: u8) -> Core
    ensures { result ≡ keeping_of c len }
{
    let at = kept_slot(c) as usize;
    let seq = tables::next(c.seq);
    let mut kept = c.kept;
    if at < 4 {
        kept[at] = len;
    }
    Core { seq, kept, ..c }
}

// Pre-acknowledges and confirms what can be.
#[tactic(auto, unfolding(crate::specs::Store::settled_of))]
pub fn settled(c: Core, acks: &[u32]) -> Core
    ensures { result ≡ settled_of c acks.now }
{
    let order = lists::settled(c.order, &c.al, &c.seqs, acks, c.n);
    Core { order, ..c }
}
