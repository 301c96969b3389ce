// The steps of a unit on its numbers: an arrival and a send, up to what is to be written into the arrays.
#![tactic(auto)]

mod asked;
mod data;
mod own;
mod place;
mod ranged;

ghost use Rattle.std.specs.Prelude.{◌≡◌};
ghost use Rattle.rules.specs.Message.{decode};
ghost use Rattle.steps.specs.Arrival.{arrival_of};
ghost use Rattle.steps.specs.Checks.{of_group};
ghost use Rattle.steps.specs.Sending.{sending_of};

use answers::Refusal;
use asked::Asking;
use frame;
use frame::{Frame, Head};
use ranged::Ranged;
use state;
use state::Core;

// The numbers to resend: the first and the last.
#[derive(Clone, Copy)]
pub struct Resend {
    pub first: u32,
    pub last: u32,
}

// A message that is accepted: its ACK and the data of its frame belong to the place, and the oldest `gone` kept frames
// are no longer kept.
#[derive(Clone, Copy)]
pub struct Stored {
    pub place: u8,
    pub gone: u32,
    pub ack: [u32; 8],
}

// What an arrival that is not refused was: a request for what is still kept, or a message to store.
#[derive(Clone, Copy)]
pub enum Arrival {
    Asked(Resend),
    Accepted(Stored),
}

// A send that is not refused: the BUF of its message, and the unit's next numbers. The frame belongs to the slot, and
// then the oldest `gone` are no longer kept; ACK and data belong to the place.
#[derive(Clone, Copy)]
pub struct Sending {
    pub buf: u16,
    pub slot: u32,
    pub place: u8,
    pub gone: u32,
    pub core: Core,
}

// Whether a frame is of this group: n ACKs, and a sender that is a unit.
#[tactic(auto, unfolding(crate::specs::Checks::of_group))]
fn of_group(c: Core, h: Head) -> bool
    ensures { result ≡ of_group c h }
{
    h.n == c.n as usize && state::is_unit(c.n, h.src)
}

// The bytes s arrive: the unit's next numbers, which a refusal changes in HEARD at most, and what the arrival was.
#[tactic(auto, unfolding(crate::specs::Arrival::arrival_of, crate::specs::Arrival::frame_arrival))]
pub fn arrive<'a>(c: Core, acks: &'a [u32], s: &'a [u8]) -> (Core, Result<Arrival, Refusal>)
    ensures { result ≡ arrival_of c acks.now (decode s.now) }
{
    if !state::sound(c, acks) {
        return (c, Err(Refusal::Unsound));
    }
    match frame::read(s) {
        None => (c, Err(Refusal::NotAFrame)),
        Some(Frame::Data(f)) => data::arrived(Ranged { core: c }, f),
        Some(Frame::Request(request)) => (c, Asking { at: c, request }.arrived()),
    }
}

// Data of len bytes are sent, with room bytes of output.
#[tactic(auto, unfolding(crate::specs::Sending::sending_of))]
pub fn send(c: Core, acks: &[u32], len: usize, room: usize) -> Result<Sending, Refusal>
    ensures { result ≡ sending_of c acks.now len room }
{
    state::checked(c, acks)?;
    own::checked(Ranged { core: c }, len, room)
}
