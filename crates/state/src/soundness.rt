// The tests that make a unit sound, one for each clause.
ghost use Rattle.std.specs.Prelude.{◌≡◌, ◌≤◌, ◌+◌, ◌*◌};
ghost use Rattle.rules.specs.Maps.{between};
ghost use Rattle.rules.specs.Sound.{ranges_fit};
ghost use Rattle.state.specs.Soundness.{nexts_of, kept_lengths, own_low, window_of, place_of, places_of};

use crate::{Core, LEAST_UNITS, LEAST_WINDOW, MOST_DATA, MOST_UNITS, MOST_WINDOW, own_low};
use lists;
use tables;

// Kept: i, n and W as numbers here and in the programs, since the README's `Opening { me, n, w, .. }` has them as such.
// i, n and W are in range.
#[tactic(auto, unfolding(rules::specs::Sound::ranges_fit, rules::specs::Maps::between))]
pub fn ranges_fit(me: u8, n: u8, w: u8) -> bool
    ensures { result ≡ ranges_fit me n w }
{
    (LEAST_UNITS..=MOST_UNITS).contains(&(n as usize))
        && (LEAST_WINDOW..=MOST_WINDOW).contains(&(w as usize))
        && (1..=n).contains(&me)
}

// No number that means "next" is 0.
#[tactic(auto, unfolding(crate::specs::Soundness::nexts_of))]
pub fn nexts_fit(c: &Core) -> bool
    ensures { result ≡ nexts_of c.now.n c.now.seq c.now.req c.now.heard c.now.al c.now.order.pal }
{
    c.seq != 0
        && tables::none_zero(&c.req, c.n)
        && tables::none_zero(&c.heard, c.n)
        && tables::table_none_zero(&c.al, c.n)
        && tables::table_none_zero(&c.order.pal, c.n)
}

// So many bytes are a length that a frame of data can have.
#[tactic(auto, unfolding(rules::specs::Maps::between))]
fn frame_fits(n: u8, long: u8) -> bool
    ensures { result ≡ between (37 + 4 * n) (85 + 4 * n) long }
{
    let least = 37 + 4 * (n as usize);
    (least..=least + MOST_DATA).contains(&(long as usize))
}

// The first m kept frames are as long as frames of data can be.
pub fn kept_fit(kept: &[u8], n: u8, m: u32) -> bool
    ensures { result ≡ kept_lengths kept.now n m }
{
    for i in 0..m {
        if !frame_fits(n, tables::get_or(kept, i as usize, 0)) {
            return false;
        }
    }
    true
}

// SEQ is from minAL to minAL + W, a sum that may pass 32 bits, and the frames kept from minAL on are of fit lengths.
#[tactic(auto, unfolding(crate::specs::Soundness::window_of, rules::specs::Maps::between))]
pub fn window_fits(c: &Core) -> bool
    ensures { result ≡ window_of (own_low c.now) c.now.w c.now.n c.now.seq c.now.kept }
{
    let low = own_low(&c.al, c.me, c.n);
    (low as u64..=(low as u64) + (c.w as u64)).contains(&(c.seq as u64))
        && kept_fit(&c.kept, c.n, c.seq - low)
}

// Place p is one of its sender's, and its message keeps the frame limits.
#[tactic(auto, unfolding(crate::specs::Soundness::place_of, rules::specs::Maps::between))]
pub fn place_fits(c: &Core, acks: &[u32], p: u8) -> bool
    ensures { result ≡ place_of c.now.n c.now.w c.now.seqs c.now.lens acks.now p }
{
    let i = p as usize;
    p / 16 + 1 <= c.n
        && ((p % 16) as usize) < 4 * (c.w as usize)
        && (1..=u32::MAX - 1).contains(&tables::get_or(&c.seqs, i, 0))
        && tables::none_zero(tables::tail(acks, 8 * i), c.n)
        && tables::get_or(&c.lens, i, 0) as usize <= MOST_DATA
}

// Each taken place fits, and none stands twice in the lists.
pub fn places_fit(c: &Core, acks: &[u32]) -> bool
    requires { c.now.n ≤ 8 }
    ensures { result ≡ places_of c.now.n c.now.w c.now.seqs c.now.lens acks.now c.now.order }
{
    let mut marks = [false; 128];
    for q in 0..lists::taken(c.order) {
        let p = tables::get_or(&c.order.list, q, 0);
        if !place_fits(c, acks, p) || marks[p as usize] {
            return false;
        }
        marks[p as usize] = true;
    }
    true
}
