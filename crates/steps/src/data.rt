// The arrival of data.
ghost use Rattle.std.specs.Prelude.{◌≡◌, ◌<◌, cond};
ghost use Rattle.answers.specs.Answers.{number_of, judged};
ghost use Rattle.steps.specs.Arrival.{noted_of, notes, storing, unit_arrival, data_arrival};
ghost use Rattle.steps.specs.Checks.{FromUnit, impossible, turn_checks, unit_checks};

use crate::ranged::Ranged;
use crate::{Arrival, Stored, of_group, place};
use answers::Refusal;
use frame::Data;
use state::Core;
use store;
use store::Accepting;
use tables;

// Data from a unit of the group, at a unit whose ranges fit.
#[derive(Clone, Copy)]
struct Heard {
    at: Ranged,
    data: Data,
    ghost sender: { FromUnit at.core data.head },
    ghost short: { data.len < 256 },
}

impl Heard {
    // Whether it says what no unit of the group can have said.
    #[tactic(auto, unfolding(crate::specs::Checks::impossible))]
    fn cannot_be(self) -> bool
        ensures { result ≡ impossible self.at.core self.data }
    {
        let c = self.at.core;
        let f = self.data;
        let ack = f.head.ack;
        let places = 4 * (c.w as u32) * (c.n as u32);
        c.seq < tables::at(&ack, c.me)
            || tables::at(&ack, f.head.src as u8) != f.seq
            || places < f.buf
    }

    // Whether it is the sender's turn: the next of its messages, and none that it knew of is missing here.
    fn turn(self) -> Result<(), Refusal>
        ensures { result ≡ judged (turn_checks self.at.core self.data) tt }
    {
        let c = self.at.core;
        let f = self.data;
        let j = f.head.src as u8;
        let ack = f.head.ack;
        let next = tables::at(&c.req, j);
        if f.seq < next {
            return Err(Refusal::AcceptedBefore);
        }
        if next < f.seq {
            return Err(Refusal::EarlierMissing);
        }
        if !tables::below_but(&ack, &c.req, c.n, j) {
            return Err(Refusal::NamesMissing);
        }
        let said = tables::column_of(&c.al, j);
        if !tables::below_but(&said, &ack, c.n, 0) {
            return Err(Refusal::AckFell);
        }
        if place::none_free(c, j) {
            return Err(Refusal::NoPlace);
        }
        Ok(())
    }

    fn checks(self) -> Result<(), Refusal>
        ensures { result ≡ judged (unit_checks self.at.core self.data) tt }
    {
        if self.data.head.src == self.at.core.me as u32 {
            return Err(Refusal::OwnFrame);
        }
        if self.cannot_be() {
            return Err(Refusal::Impossible);
        }
        self.turn()
    }

    // The numbers that it shows to be missing are noted.
    #[tactic(auto, unfolding(crate::specs::Arrival::noted_of))]
    fn noted(self) -> Core
        ensures { result ≡ noted_of self.at.core self.data }
    {
        let c = self.at.core;
        let f = self.data;
        let shown = tables::with(f.head.ack, f.head.src as u8, tables::next(f.seq));
        let heard = tables::raised_to(c.heard, shown, c.n);
        Core { heard, ..c }
    }

    // The numbers after a refusal: what is missing is noted with some.
    fn after(self, r: Refusal) -> Core
        ensures { result ≡ cond (notes (number_of r)) (noted_of self.at.core self.data) self.at.core }
    {
        if notes(r) { self.noted() } else { self.at.core }
    }

    // Its message is stored at the first free place.
    #[tactic(auto, unfolding(crate::specs::Arrival::storing))]
    fn stored(self) -> (Core, Result<Arrival, Refusal>)
        ensures { result ≡ storing self.at.core self.data }
    {
        let f = self.data;
        let ack = f.head.ack;
        let place = place::first_free(self.at, f.head.src as u8);
        let m = Accepting {
            place,
            seq: f.seq,
            ack,
            buf: f.buf,
            len: f.len as u8,
        };
        let s = store::stored(self.at.core, m);
        let stored = Stored {
            place,
            gone: s.gone,
            ack,
        };
        (s.core, Ok(Arrival::Accepted(stored)))
    }

    #[tactic(auto, unfolding(crate::specs::Arrival::unit_arrival))]
    fn arrived(self) -> (Core, Result<Arrival, Refusal>)
        ensures { result ≡ unit_arrival self.at.core self.data }
    {
        match self.checks() {
            Ok(()) => self.stored(),
            Err(r) => (self.after(r), Err(r)),
        }
    }
}

// Whether a refusal notes the missing numbers.
fn notes(r: Refusal) -> bool
    ensures { result ≡ notes (number_of r) }
{
    matches!(
        r,
        Refusal::EarlierMissing | Refusal::NamesMissing | Refusal::NoPlace
    )
}

#[tactic(auto, unfolding(crate::specs::Arrival::data_arrival))]
pub fn arrived(at: Ranged, f: Data) -> (Core, Result<Arrival, Refusal>)
    requires { f.len < 256 }
    ensures { result ≡ data_arrival at.core f }
{
    let c = at.core;
    if f.head.cid != c.cid {
        return (c, Err(Refusal::OtherGroup));
    }
    if !of_group(c, f.head) {
        return (c, Err(Refusal::NoSuchUnit));
    }
    Heard { at, data: f }.arrived()
}
