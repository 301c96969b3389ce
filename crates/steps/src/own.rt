// A send.
ghost use Rattle.std.specs.Prelude.{◌≡◌, ◌≤◌};
ghost use Rattle.answers.specs.Answers.{judged};
ghost use Rattle.steps.specs.Checks.{window_open, send_checks};
ghost use Rattle.steps.specs.Sending.{sending_own, sending_checked};

use crate::ranged::Ranged;
use crate::{Sending, place};
use answers::Refusal;
use state;
use store;
use store::Accepting;
use tables;

// SEQ is inside the window; the sum may pass 32 bits.
#[tactic(auto, unfolding(crate::specs::Checks::window_open))]
fn window_open(r: Ranged) -> bool
    ensures { result ≡ window_open r.core }
{
    let c = r.core;
    let share = tables::least_of(&c.buf, c.n) / (c.n as u32);
    let ahead = (c.w as u32).min(share);
    (c.seq as u64) < (state::own_low(&c.al, c.me, c.n) as u64) + (ahead as u64)
}

fn checks(r: Ranged, len: usize, room: usize) -> Result<(), Refusal>
    ensures { result ≡ judged (send_checks r.core len room) tt }
{
    let c = r.core;
    if 48 < len {
        return Err(Refusal::TooLong);
    }
    if c.seq == u32::MAX {
        return Err(Refusal::NoNumberLeft);
    }
    if !window_open(r) {
        return Err(Refusal::WindowShut);
    }
    if place::none_free(c, c.me) {
        return Err(Refusal::NoPlace);
    }
    if room < 37 + 4 * (c.n as usize) + len {
        return Err(Refusal::OutputTooShort);
    }
    Ok(())
}

// The frame is kept, and its message stored at the first free place.
#[tactic(auto, unfolding(crate::specs::Sending::sending_own, crate::specs::Sending::frame_length))]
fn kept(r: Ranged, len: usize) -> Sending
    requires { len ≤ 48 }
    ensures { result ≡ sending_own r.core len }
{
    let c = r.core;
    let ack = c.req;
    let buf = state::free_places(c);
    let place = place::first_free(r, c.me);
    let next = store::keeping(c, (37 + 4 * (c.n as usize) + len) as u8);
    let m = Accepting {
        place,
        seq: c.seq,
        ack,
        buf,
        len: len as u8,
    };
    let s = store::stored(next, m);
    Sending {
        buf: buf as u16,
        slot: store::kept_slot(c),
        place,
        gone: s.gone,
        core: s.core,
    }
}

#[tactic(auto, unfolding(crate::specs::Sending::sending_checked))]
pub fn checked(r: Ranged, len: usize, room: usize) -> Result<Sending, Refusal>
    ensures { result ≡ sending_checked r.core len room }
{
    checks(r, len, room)?;
    Ok(kept(r, len))
}
