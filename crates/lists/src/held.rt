// An order whose places all stand in its array.
ghost use Rattle.std.specs.Prelude.{◌≤◌};
ghost use Rattle.lists.specs.Order.{total};

use crate::Order;

#[derive(Clone, Copy)]
pub struct Held {
    pub order: Order,
    pub ghost room: { total order ≤ 128 },
}
