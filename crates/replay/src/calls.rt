// A call on a unit, as its record names it.
ghost use Rattle.std.specs.Prelude.{◌≡◌, ◌+◌, ◌*◌, ◌≤◌, length};
ghost use Rattle.rules.specs.Maps.{listed};
ghost use Rattle.handing.specs.Handing.{Gives};
ghost use Rattle.replay.specs.Calls.{made, gives, three_of, of_length, of_count, of_row, open_made, send_made, arrive_made, take_made, made_of};
ghost use Rattle.replay.specs.Kinds.{call_number};
ghost use Rattle.replay.specs.Changes.{changed_of};
ghost use Rattle.replay.specs.Record.{byte_at, number_at, call_of};

use crate::changes::changed;
use crate::kinds::Call;
use crate::record::{number_at, text};
use answers::Refusal;
use handing::looks::Numbers;
use state::Opening;
use tables;
use unit::Unit;

// What a call gives: three numbers (those that it lacks are 0) or why it refuses. The unit is changed where it stands: it
// is 12 KB, and handed on by value it would be copied at each hand.
pub type Gave = Result<(usize, usize, usize), Refusal>;

// The eight first numbers of an opening.
fn firsts(s: &[u8]) -> [u32; 8]
    ensures { result ≡ listed 0 8 (λ k. number_at s.now (11 + 4 * k)) }
{
    let mut first = [0; 8];
    for k in 0..8 {
        first[k] = number_at(s, 11 + 4 * k);
    }
    first
}

#[tactic(auto, unfolding(crate::specs::Calls::open_made))]
fn opened(u: &mut Unit, s: &[u8]) -> Gave
    ensures { made result u.new ≡ open_made s.now }
{
    let opened;
    (*u, opened) = Unit::open(Opening {
        me: tables::get_or(s, 8, 0),
        n: tables::get_or(s, 9, 0),
        w: tables::get_or(s, 10, 0),
        cid: number_at(s, 2),
        first: firsts(s),
    });
    opened.map(|()| (0, 0, 0))
}

#[tactic(auto, unfolding(crate::specs::Calls::send_made))]
fn sent(u: &mut Unit, text: &[u8], out: &mut [u8]) -> Gave
    ensures { Gives (send_made u.old text.now out.old) (made result u.new) out.new }
{
    let sent;
    (*u, sent) = u.send(text, out);
    sent.map(|s| (s.seq as usize, s.len, 0))
}

#[tactic(auto, unfolding(crate::specs::Calls::arrive_made))]
fn arrived(u: &mut Unit, frame: &[u8]) -> Gave
    ensures { made result u.new ≡ arrive_made u.old frame.now }
{
    let arrived;
    (*u, arrived) = u.arrive(frame);
    arrived.map(|asked| match asked {
        Some(r) => (r.first as usize, r.last as usize, 0),
        None => (0, 0, 0),
    })
}

// A request and a copy give the length of a frame.
fn handed(len: Result<usize, Refusal>) -> Gave
    ensures { result ≡ three_of of_length len }
{
    len.map(|len| (len, 0, 0))
}

#[tactic(auto, unfolding(crate::specs::Calls::take_made))]
fn taken(u: &mut Unit, out: &mut [u8]) -> Gave
    ensures { Gives (take_made u.old out.old) (made result u.new) out.new }
{
    let taken;
    (*u, taken) = u.take(out);
    taken.map(|t| (t.src as usize, t.seq as usize, t.len))
}

// Looks show a count alone, or numbers in a row.
fn counted(count: Result<usize, Refusal>) -> Gave
    ensures { result ≡ three_of of_count count }
{
    count.map(|count| (0, count, 0))
}

fn looked(numbers: Result<Numbers, Refusal>) -> Gave
    ensures { result ≡ three_of of_row numbers }
{
    numbers.map(|row| (row.first as usize, row.count, 0))
}

// The number is set that the record names.
fn set(u: &mut Unit, s: &[u8], x: u32) -> Gave
    ensures { made result u.new ≡ gives 0 0 0 (changed_of u.old (byte_at s.now 8) (byte_at s.now 9) (byte_at s.now 10) x) }
{
    changed(
        u,
        tables::get_or(s, 8, 0),
        tables::get_or(s, 9, 0),
        tables::get_or(s, 10, 0),
        x,
    );
    Ok((0, 0, 0))
}

// The call of a record. Calls that write nothing leave the output as it was.
#[tactic(auto, unfolding(crate::specs::Calls::made_of, crate::specs::Calls::ask_made, crate::specs::Calls::copy_made, crate::specs::Calls::seen_made))]
fn named(u: &mut Unit, call: Call, s: &[u8], out: &mut [u8]) -> Gave
    requires { (208 ≤ length s.now) × (call_number call ≡ call_of s.now) }
    ensures { Gives (made_of u.old s.now out.old) (made result u.new) out.new }
{
    let x = number_at(s, 2);
    let k = (x % 256) as u8;
    match call {
        Call::Open => opened(u, s),
        Call::Send => sent(u, text(s), out),
        Call::Arrive => arrived(u, text(s)),
        Call::Request => handed(u.request(k, out)),
        Call::Copy => handed(u.copy(x, out)),
        Call::Take => taken(u, out),
        Call::ToTake => counted(u.to_take()),
        Call::FreePlaces => counted(u.free_places()),
        Call::KeptNumbers => looked(u.kept_numbers()),
        Call::MissingOf => looked(u.missing_of(k)),
        Call::WaitingOf => counted(u.waiting_of(k)),
        Call::IsSound => Ok((usize::from(u.is_sound()), 0, 0)),
        Call::Set => set(u, s, x),
    }
}

// The call that a record names; where there is no such call, nothing is done.
#[tactic(auto, using(crate::proofs::CallLaws::made_none))]
pub fn make(u: &mut Unit, s: &[u8], out: &mut [u8]) -> Gave
    requires { 208 ≤ length s.now }
    ensures { Gives (made_of u.old s.now out.old) (made result u.new) out.new }
{
    match Call::try_from(tables::get_or(s, 0, 0)) {
        Ok(call) => named(u, call, s, out),
        Err(_) => Ok((0, 0, 0)),
    }
}
