// Units that no run of calls makes: one number of a unit is set.
ghost use Rattle.std.specs.Prelude.{◌≡◌};
ghost use Rattle.replay.specs.Changes.{changed_of};
ghost use Rattle.replay.specs.Kinds.{setting_number};

use crate::kinds::Setting;
use tables;
use unit::Unit;

// One number of the unit is set to x: of row k and column j, or of the message at position k.
#[tactic(auto, unfolding(crate::specs::Changes::changed_of))]
fn set(u: &mut Unit, what: Setting, k: u8, j: u8, x: u32)
    ensures { u.new ≡ changed_of u.old (setting_number what) k j x }
{
    let row = tables::before(k) as usize;
    let column = tables::before(j) as usize;
    let place = tables::get_or(&u.core.order.list, k as usize, 0) as usize;
    let low = (x % 256) as u8;
    match what {
        Setting::Seq => u.core.seq = x,
        Setting::Req => tables::put(&mut u.core.req, row, &[x]),
        Setting::Heard => tables::put(&mut u.core.heard, row, &[x]),
        Setting::Buf => tables::put(&mut u.core.buf, row, &[x]),
        Setting::Al => tables::put(&mut u.core.al, 8 * row + column, &[x]),
        Setting::Pal => tables::put(&mut u.core.order.pal, 8 * row + column, &[x]),
        Setting::Me => u.core.me = low,
        Setting::N => u.core.n = low,
        Setting::W => u.core.w = low,
        Setting::Cid => u.core.cid = x,
        Setting::MessageSeq => tables::put(&mut u.core.seqs, place, &[x]),
        Setting::MessageLength => tables::put(&mut u.core.lens, place, &[low]),
        Setting::MessageAck => tables::put(&mut u.acks, 8 * place + column, &[x]),
        Setting::Place => {
            let same = tables::get_or(&u.core.order.list, j as usize, 0);
            tables::put(&mut u.core.order.list, k as usize, &[same]);
        }
    }
}

// One number of the unit is set to x; where there is no such thing, none is. Kept: `what` as the record's number, of which a
// `Setting` is made first.
#[tactic(auto, using(crate::proofs::ChangeLaws::changed_none))]
pub fn changed(u: &mut Unit, what: u8, k: u8, j: u8, x: u32)
    ensures { u.new ≡ changed_of u.old what k j x }
{
    if let Ok(setting) = Setting::try_from(what) {
        set(u, setting, k, j, x);
    }
}
