// The places of a sender.
ghost use Rattle.std.specs.Prelude.{◌≡◌, ◌≤◌};
ghost use Rattle.steps.specs.Arrival.{free_place};
ghost use Rattle.steps.specs.Checks.{no_place};

use crate::ranged::Ranged;
use lists;
use state::Core;

// The first free place of sender j.
#[tactic(auto, unfolding(crate::specs::Arrival::free_place))]
pub fn first_free(r: Ranged, j: u8) -> u8
    requires { (1 ≤ j) × (j ≤ 8) }
    ensures { result ≡ free_place r.core j }
{
    let c = r.core;
    16 * (j - 1) + lists::free_slot(c.order, j, 4 * c.w)
}

// Sender j has no free place.
#[tactic(auto, unfolding(crate::specs::Checks::no_place))]
pub fn none_free(c: Core, j: u8) -> bool
    ensures { result ≡ no_place c j }
{
    4 * (c.w as usize) <= lists::taken_of(c.order, j)
}
