// What a unit hands out without storing anything: the oldest confirmed message, a request, a kept frame, and looks.
#![tactic(auto)]

ghost use Rattle.std.specs.Prelude.{◌≡◌};
ghost use Rattle.handing.specs.Handing.{Gives, taking_of, asking_of, copying_of};

mod copy;
pub mod looks;

use answers::Refusal;
use copy::put_part;
use framewrite::write_request;
use lists::without_first;
use state::{Core, checked, is_unit, own_low, sound};
use tables;

// The message that is taken: its sender, its number, and the length of its data.
#[derive(Clone, Copy)]
pub struct Taken {
    pub src: u8,
    pub seq: u32,
    pub len: usize,
}

// Takes the oldest confirmed message: its data stand at the front of the output, and in the unit's next numbers its place
// is free.
#[tactic(auto, unfolding(crate::specs::Handing::taking_of))]
pub fn taking<'a>(
    c: Core,
    acks: &'a [u32],
    bytes: &'a [u8],
    out: &mut [u8],
) -> (Core, Result<Taken, Refusal>)
    ensures { Gives (taking_of c acks.now bytes.now out.old) result out.new }
{
    if !sound(c, acks) {
        return (c, Err(Refusal::Unsound));
    }
    if c.order.confirmed == 0 {
        return (c, Err(Refusal::Nothing));
    }
    let p = tables::get_or(&c.order.list, 0, 0);
    let i = p as usize;
    let len = tables::get_or(&c.lens, i, 0) as usize;
    if out.len() < len {
        return (c, Err(Refusal::OutputTooShort));
    }
    put_part(out, bytes, 48 * i, len);
    let order = without_first(c.order);
    let taken = Taken {
        src: p / 16 + 1,
        seq: tables::get_or(&c.seqs, i, 0),
        len,
    };
    (Core { order, ..c }, Ok(taken))
}

// Makes the request for what is missing of unit k, at the front of the output, and gives its length.
#[tactic(auto, unfolding(crate::specs::Handing::asking_of))]
pub fn asking(c: Core, acks: &[u32], k: u8, out: &mut [u8]) -> Result<usize, Refusal>
    ensures { Gives (asking_of c acks.now k out.old) result out.new }
{
    checked(c, acks)?;
    if !is_unit(c.n, k as u32) || k == c.me {
        return Err(Refusal::NoSuchUnit);
    }
    let heard = tables::at(&c.heard, k);
    if heard <= tables::at(&c.req, k) {
        return Err(Refusal::Nothing);
    }
    write_request(out, c.cid, c.me, &c.req, c.n as usize, k, heard)
}

// Copies the kept frame of number x to the front of the output, and gives its length.
#[tactic(auto, unfolding(crate::specs::Handing::copying_of))]
pub fn copying<'a>(
    c: Core,
    acks: &'a [u32],
    frames: &'a [u8],
    x: u32,
    out: &mut [u8],
) -> Result<usize, Refusal>
    ensures { Gives (copying_of c acks.now frames.now x out.old) result out.new }
{
    checked(c, acks)?;
    let low = own_low(&c.al, c.me, c.n);
    if x < low || c.seq <= x {
        return Err(Refusal::Nothing);
    }
    let slot = (x - low) as usize;
    let len = tables::get_or(&c.kept, slot, 0) as usize;
    if out.len() < len {
        return Err(Refusal::OutputTooShort);
    }
    put_part(out, frames, 117 * slot, len);
    Ok(len)
}
