// The group on the bench: its units, and the frames written so far.
ghost use Rattle.std.specs.Prelude.{◌≡◌, ◌<◌};
ghost use Rattle.bench.specs.Desk.{started_unit, started_desk, kept_in};

use answers::Refusal;
use state::Opening;
use unit::Unit;

// A frame: the first len of these bytes.
// Kept: `len ≤ 117` was tried as a ghost field; then `kept_in` (specs), which makes a frame of whatever length a call
// gives, can no longer be stated. It stands in `Fits`.
#[derive(Clone, Copy)]
pub struct Frame {
    pub bytes: [u8; Unit::MOST_FRAME],
    pub len: usize,
}

// Unit u is `units[u - 1]`, closed where u is more than n. Frame f is `frames[f - 1]`, and there are so many as `count`.
// Kept: an ArrayVec of frames is no plainer. It is not Copy, and `Stage::step` takes the desk out of the bench by value.
#[derive(Clone, Copy)]
pub struct Desk {
    pub n: u8,
    pub units: [Unit; Desk::UNITS],
    pub frames: [Frame; Desk::FRAMES],
    pub count: usize,
}

// Kept: beside drive's function of this name; each is one call by its own program's definition.
// Unit `me` of a group: CID 1, first numbers 1; closed where there is no such unit.
#[tactic(auto, unfolding(crate::specs::Desk::started_unit))]
fn opened_unit(me: u8, n: u8, w: u8) -> Unit
    ensures { result ≡ started_unit me n w }
{
    Unit::open(Opening {
        me,
        n,
        w,
        cid: 1,
        first: [1u32; 8],
    })
    .0
}

impl Desk {
    // The most units on the bench, and the most frames: one for each later line.
    pub const UNITS: usize = 3;

    pub const FRAMES: usize = 64;

    // A group of n units with window w, and no frame yet.
    #[tactic(auto, unfolding(crate::specs::Desk::started_desk))]
    pub fn open(n: u8, w: u8) -> Self
        ensures { result ≡ started_desk n w }
    {
        let a = opened_unit(1, n, w);
        let b = opened_unit(2, n, w);
        let c = opened_unit(3, n, w);
        let none = Frame {
            bytes: [0; Unit::MOST_FRAME],
            len: 0,
        };
        Self {
            n,
            // Kept: the three as they are; a `for` would first need three units of its own.
            units: [a, b, c],
            frames: [none; Self::FRAMES],
            count: 0,
        }
    }

    // Where a call wrote a frame, so many of these bytes, it is the next one.
    #[tactic(auto, unfolding(crate::specs::Desk::kept_in))]
    pub fn keep(&mut self, written: Result<usize, Refusal>, bytes: [u8; Unit::MOST_FRAME])
        requires { self.old.count < 64 }
        ensures { self.new ≡ kept_in self.old written bytes }
    {
        if let Ok(len) = written {
            self.frames[self.count] = Frame { bytes, len };
            self.count += 1;
        }
    }
}
