// A unit's numbers whose i, n and W are in range: what its steps rest on once it is sound.
ghost use Rattle.steps.specs.Checks.{InRange};

use state::Core;

#[derive(Clone, Copy)]
pub struct Ranged {
    pub core: Core,
    pub ghost ranges: { InRange core },
}
