// The numbers of a fresh unit.
ghost use Rattle.std.specs.Prelude.{◌&&◌, ◌≡◌, leb};
ghost use Rattle.rules.specs.Maps.{between, at, every};
ghost use Rattle.rules.specs.Message.{last};
ghost use Rattle.rules.specs.Sound.{ranges_fit};
ghost use Rattle.state.specs.Opening.{rows_of, core_of};

use crate::{Core, Opening, places, soundness};
use lists::Order;
use tables;

// Every number is in the range for opening; that none is past 32 bits its type says.
pub fn can_open(o: Opening) -> bool
    ensures { result ≡ ranges_fit o.me o.n o.w && leb o.cid last && every 1 o.n (λ k. between 1 last (at o.first k)) }
{
    soundness::ranges_fit(o.me, o.n, o.w) && tables::none_zero(&o.first, o.n)
}

// The numbers v in each of the columns 1 to n.
pub fn rows(v: [u32; 8], n: u8) -> [u32; 64]
    ensures { result ≡ rows_of n v }
{
    let mut t = [0u32; 64];
    for j in 0..n {
        let more = tables::with_column(t, j + 1, &v);
        t = more;
    }
    t
}

// A unit with these first numbers, nothing taken or kept.
#[tactic(auto, unfolding(crate::specs::Opening::core_of))]
pub fn unit(o: Opening) -> Core
    ensures { result ≡ core_of o }
{
    let none = [0u32; 8];
    let room = [places(o.w, o.n); 8];
    let req = tables::raised_to(none, o.first, o.n);
    let al = rows(req, o.n);
    Core {
        me: o.me,
        n: o.n,
        w: o.w,
        cid: o.cid,
        seq: tables::at(&o.first, o.me),
        req,
        heard: req,
        buf: tables::raised_to(none, room, o.n),
        al,
        kept: [0u8; 4],
        seqs: [0u32; 128],
        lens: [0u8; 128],
        order: Order {
            pal: al,
            list: [0u8; 128],
            confirmed: 0,
            ordered: 0,
            waiting: 0,
        },
    }
}
