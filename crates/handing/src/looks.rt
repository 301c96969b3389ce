// Looks at a unit: each refuses with 1 where the unit is not sound and with 5 where k is no unit.
ghost use Rattle.std.specs.Prelude.{◌≡◌};
ghost use Rattle.answers.specs.Answers.{judged};
ghost use Rattle.handing.specs.Looks.{numbers_of, count_of, unit_checks, to_take_in, free_places_in, kept_numbers_in, missing_in, waiting_in};

use answers::Refusal;
use lists;
use state;
use state::{Core, checked, is_unit, own_low};
use tables;

// Numbers in a row: the first, and how many.
#[derive(Clone, Copy)]
pub struct Numbers {
    pub first: u32,
    pub count: usize,
}

// Refuses a look at what an unsound unit holds, or at what it holds of no unit.
fn checked_for(c: Core, acks: &[u32], k: u8) -> Result<(), Refusal>
    ensures { result ≡ judged (unit_checks c acks.now k) tt }
{
    checked(c, acks)?;
    if is_unit(c.n, k as u32) {
        Ok(())
    } else {
        Err(Refusal::NoSuchUnit)
    }
}

// How many messages are confirmed and not yet taken.
#[tactic(auto, unfolding(crate::specs::Looks::to_take_in))]
pub fn to_take(c: Core, acks: &[u32]) -> Result<usize, Refusal>
    ensures { result ≡ count_of (to_take_in c acks.now) }
{
    checked(c, acks)?;
    Ok(c.order.confirmed as usize)
}

// How many places are free.
#[tactic(auto, unfolding(crate::specs::Looks::free_places_in))]
pub fn free_places(c: Core, acks: &[u32]) -> Result<usize, Refusal>
    ensures { result ≡ count_of (free_places_in c acks.now) }
{
    checked(c, acks)?;
    Ok(state::free_places(c) as usize)
}

// The kept numbers: from minAL of the own index up to SEQ - 1.
#[tactic(auto, unfolding(crate::specs::Looks::kept_numbers_in))]
pub fn kept_numbers(c: Core, acks: &[u32]) -> Result<Numbers, Refusal>
    ensures { result ≡ numbers_of (kept_numbers_in c acks.now) }
{
    checked(c, acks)?;
    let first = own_low(&c.al, c.me, c.n);
    let count = c.seq.saturating_sub(first) as usize;
    Ok(Numbers { first, count })
}

// The missing numbers of unit k: from REQ on, also where none is missing.
#[tactic(auto, unfolding(crate::specs::Looks::missing_in))]
pub fn missing_of(c: Core, acks: &[u32], k: u8) -> Result<Numbers, Refusal>
    ensures { result ≡ numbers_of (missing_in c acks.now k) }
{
    checked_for(c, acks, k)?;
    let first = tables::at(&c.req, k);
    let count = tables::at(&c.heard, k).saturating_sub(first) as usize;
    Ok(Numbers { first, count })
}

// How many of unit k's messages wait.
#[tactic(auto, unfolding(crate::specs::Looks::waiting_in))]
pub fn waiting_of(c: Core, acks: &[u32], k: u8) -> Result<usize, Refusal>
    ensures { result ≡ count_of (waiting_in c acks.now k) }
{
    checked_for(c, acks, k)?;
    Ok(lists::waiting_of(c.order, k))
}
