// The arrival of a request.
ghost use Rattle.std.specs.Prelude.{◌≡◌};
ghost use Rattle.answers.specs.Answers.{judged};
ghost use Rattle.steps.specs.Arrival.{request_arrival};
ghost use Rattle.steps.specs.Checks.{names_other, asks_wrongly, resend_from, request_checks};

use crate::{Arrival, Resend, of_group};
use answers::Refusal;
use frame::Request;
use state;
use state::Core;
use tables;

// A request that has come to a unit.
#[derive(Clone, Copy)]
pub struct Asking {
    pub at: Core,
    pub request: Request,
}

impl Asking {
    #[tactic(auto, unfolding(crate::specs::Checks::names_other))]
    fn names_other(self) -> bool
        ensures { result ≡ names_other self.at self.request }
    {
        let f = self.request;
        state::is_unit(self.at.n, f.lsrc) && f.lsrc != f.head.src
    }

    #[tactic(auto, unfolding(crate::specs::Checks::asks_wrongly))]
    fn asks_wrongly(self) -> bool
        ensures { result ≡ asks_wrongly self.at self.request }
    {
        let seq = self.at.seq;
        let f = self.request;
        let own = tables::at(&f.head.ack, self.at.me);
        seq < own || seq < f.lseq || f.lseq <= own
    }

    // The first number to resend.
    #[tactic(auto, unfolding(crate::specs::Checks::resend_from))]
    fn first(self) -> u32
        ensures { result ≡ resend_from self.at self.request }
    {
        let c = self.at;
        tables::at(&self.request.head.ack, c.me).max(state::own_low(&c.al, c.me, c.n))
    }

    fn checks(self) -> Result<(), Refusal>
        ensures { result ≡ judged (request_checks self.at self.request) tt }
    {
        let c = self.at;
        let f = self.request;
        if f.head.cid != c.cid {
            return Err(Refusal::OtherGroup);
        }
        if !(of_group(c, f.head) && self.names_other()) {
            return Err(Refusal::NoSuchUnit);
        }
        if f.head.src == c.me as u32 {
            return Err(Refusal::OwnFrame);
        }
        if f.lsrc != c.me as u32 {
            return Err(Refusal::ForAnother);
        }
        if self.asks_wrongly() {
            return Err(Refusal::Impossible);
        }
        if f.lseq <= self.first() {
            return Err(Refusal::Nothing);
        }
        Ok(())
    }

    #[tactic(auto, unfolding(crate::specs::Arrival::request_arrival))]
    pub fn arrived(self) -> Result<Arrival, Refusal>
        ensures { result ≡ request_arrival self.at self.request }
    {
        self.checks()?;
        Ok(Arrival::Asked(Resend {
            first: self.first(),
            last: self.request.lseq - 1,
        }))
    }
}
