// The unit of a cab: one value, opened once, and the calls on it.
#![tactic(auto)]

ghost use Rattle.rules.specs.Looks as rules;
ghost use Rattle.handing.specs.Looks.{count_alone, row, to_take_in, free_places_in, kept_numbers_in, missing_in, waiting_in};
ghost use Rattle.std.specs.Prelude.{◌≡◌};
ghost use Rattle.store.specs.Arrays.{with_frame, without_frames};
ghost use Rattle.unit.specs.Exact.{stored_with};
ghost use Rattle.unit.specs.View.{view};
ghost use Rattle.unit.specs.CallContracts.{Opens, Sends, Arrives, Asks, Copies, Takes, Looks, Tests};

pub use answers::Refusal;
use frame;
use framewrite;
use handing;
pub use handing::Taken;
use handing::looks;
pub use handing::looks::Numbers;
use state;
use state::{Core, Opening};
use steps;
pub use steps::Resend;
use steps::{Arrival, Sending, Stored};
use store;
use store::arrays;

// A unit of a group: its numbers, ACK and data of its places, and the frames that it keeps.
// Kept: flat arrays beside the numbers, since `handing::copying` and `store::arrays` answer for them as such
// (docs/CONTRACTS.md), and no heap is a rule of the project.
#[derive(Clone, Copy)]
pub struct Unit {
    pub core: Core,
    pub acks: [u32; Unit::PLACES * Unit::MOST_UNITS],
    pub bytes: [u8; Unit::PLACES * Unit::MOST_DATA],
    pub frames: [u8; Unit::MOST_WINDOW * Unit::MOST_FRAME],
}

// Number and length of the frame that was sent.
#[derive(Clone, Copy)]
pub struct Sent {
    pub seq: u32,
    pub len: usize,
}

impl Unit {
    // Units of a group.
    pub const LEAST_UNITS: usize = state::LEAST_UNITS;

    pub const MOST_UNITS: usize = state::MOST_UNITS;

    // The window.
    pub const LEAST_WINDOW: usize = state::LEAST_WINDOW;

    pub const MOST_WINDOW: usize = state::MOST_WINDOW;

    // Bytes of data; no data is allowed.
    pub const MOST_DATA: usize = state::MOST_DATA;

    // 4W places for each sender, at the widest.
    pub const PLACES: usize = 4 * Self::MOST_WINDOW * Self::MOST_UNITS;

    // Bytes of a frame.
    pub const MOST_FRAME: usize = 37 + 4 * Self::MOST_UNITS + Self::MOST_DATA;

    // Opens a unit; refused, it is closed, all numbers 0. Refusal: 2.
    pub fn open(o: Opening) -> (Unit, Result<(), Refusal>)
        ensures { Opens o result }
    {
        let (core, opened) = state::opened_with(o);
        let unit = Unit {
            core,
            acks: [0u32; Self::PLACES * Self::MOST_UNITS],
            bytes: [0u8; Self::PLACES * Self::MOST_DATA],
            frames: [0u8; Self::MOST_WINDOW * Self::MOST_FRAME],
        };
        (unit, opened)
    }

    // Sends the data: the frame stands at the front of the output. Refusals: 1, 13, 14, 15, 12, 16.
    pub fn send(mut self, text: &[u8], out: &mut [u8]) -> (Unit, Result<Sent, Refusal>)
        ensures { Sends self text.now out.old result out.new }
    {
        let given = match steps::send(self.core, &self.acks, text.len(), out.len()) {
            Err(refusal) => Err(refusal),
            Ok(s) => {
                let c = self.core;
                let n = c.n as usize;
                let len = framewrite::write_data(
                    out, c.cid, c.me, c.seq, &c.req, n, s.buf, text,
                ).unwrap();
                self.keep(s, &out[..len], text);
                Ok(Sent { seq: c.seq, len })
            }
        };
        (self, given)
    }

    // The frame of a send is kept, and its message stored and settled.
    fn keep(&mut self, s: Sending, frame: &[u8], text: &[u8])
        ensures { self.new ≡ stored_with self.old s.core s.place self.old.core.req text.now
            (without_frames (with_frame self.old.frames s.slot frame.now) s.gone) }
    {
        let req = self.core.req;
        arrays::put_frame(&mut self.frames, s.slot, frame);
        arrays::drop_frames(&mut self.frames, s.gone);
        arrays::put_ack(&mut self.acks, s.place, req);
        arrays::put_text(&mut self.bytes, s.place, text);
        self.core = store::settled(s.core, &self.acks);
    }

    // A frame of either kind arrives; for a request, the numbers to resend come back. Refusals, data: 1, 3, 4, 5, 6, 7, 8,
    // 9, 10, 11, 12; request: 1, 3, 4, 5, 6, 17, 7, 18.
    pub fn arrive(mut self, s: &[u8]) -> (Unit, Result<Option<Resend>, Refusal>)
        ensures { Arrives self s.now result }
    {
        let (next, arrived) = steps::arrive(self.core, &self.acks, s);
        self.core = next;
        let given = match arrived {
            Err(refused) => Err(refused),
            Ok(arrival) => match arrival {
                Arrival::Asked(resend) => Ok(Some(resend)),
                Arrival::Accepted(a) => {
                    self.accept(a, frame::payload(s));
                    Ok(None)
                }
            },
        };
        (self, given)
    }

    // A message that has come is stored and settled.
    fn accept(&mut self, a: Stored, text: &[u8])
        ensures { self.new ≡ stored_with self.old self.old.core a.place a.ack text.now (without_frames self.old.frames a.gone) }
    {
        arrays::put_ack(&mut self.acks, a.place, a.ack);
        arrays::put_text(&mut self.bytes, a.place, text);
        arrays::drop_frames(&mut self.frames, a.gone);
        self.core = store::settled(self.core, &self.acks);
    }

    // Makes the request for what is missing of unit k, and gives its length. Refusals: 1, 5, 18, 16.
    pub fn request(self, k: u8, out: &mut [u8]) -> Result<usize, Refusal>
        ensures { Asks self k out.old result out.new }
    {
        handing::asking(self.core, &self.acks, k, out)
    }

    // Copies out the kept frame of number x, exactly as first sent, and gives its length. Refusals: 1, 18, 16.
    pub fn copy(self, x: u32, out: &mut [u8]) -> Result<usize, Refusal>
        ensures { Copies self x out.old result out.new }
    {
        handing::copying(self.core, &self.acks, &self.frames, x, out)
    }

    // Takes the oldest confirmed message: its data stand at the front of the output. Refusals: 1, 18, 16.
    pub fn take(mut self, out: &mut [u8]) -> (Unit, Result<Taken, Refusal>)
        ensures { Takes self out.old result out.new }
    {
        let (core, taken) = handing::taking(self.core, &self.acks, &self.bytes, out);
        self.core = core;
        (self, taken)
    }

    // Kept: five looks, whose one line each names its own look at the numbers; their contract is one, `Looks`.

    // How many messages can be taken. Looks refuse with 1 where the unit is not sound, and with 5 where k is no unit.
    pub fn to_take(self) -> Result<usize, Refusal>
        ensures { Looks count_alone (to_take_in self.core self.acks) (rules.to_take (view self)) result }
    {
        looks::to_take(self.core, &self.acks)
    }

    // How many places are free.
    pub fn free_places(self) -> Result<usize, Refusal>
        ensures { Looks count_alone (free_places_in self.core self.acks) (rules.free_places (view self)) result }
    {
        looks::free_places(self.core, &self.acks)
    }

    // The kept numbers.
    pub fn kept_numbers(self) -> Result<Numbers, Refusal>
        ensures { Looks row (kept_numbers_in self.core self.acks) (rules.kept_numbers (view self)) result }
    {
        looks::kept_numbers(self.core, &self.acks)
    }

    // The missing numbers of unit k.
    pub fn missing_of(self, k: u8) -> Result<Numbers, Refusal>
        ensures { Looks row (missing_in self.core self.acks k) (rules.missing_of (view self) k) result }
    {
        looks::missing_of(self.core, &self.acks, k)
    }

    // How many of unit k's messages wait.
    pub fn waiting_of(self, k: u8) -> Result<usize, Refusal>
        ensures { Looks count_alone (waiting_in self.core self.acks k) (rules.waiting_of (view self) k) result }
    {
        looks::waiting_of(self.core, &self.acks, k)
    }

    // Whether the unit is sound.
    pub fn is_sound(self) -> bool
        ensures { Tests self result }
    {
        state::sound(self.core, &self.acks)
    }
}
