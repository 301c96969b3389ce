// The line that is being read, from the parts in which the input comes.
ghost use Rattle.std.specs.Prelude.{◌≡◌, ◌≤◌, length};
ghost use Rattle.script.specs.Reader.{command_in};
ghost use Rattle.script.specs.Shown.{shown};
ghost use Rattle.script.specs.Gathered.{emptied, Pushed, begun_of};

use crate::line;
use crate::line::Line;

// The first 80 bytes of the line, and whether there were more.
// Kept: `push`, `size` and `read` promise for every `len`, one past 80 too, and an ArrayVec of 80 bytes excludes those; and
// for every `long` beside it (`begun_of`, docs/CONTRACTS.md).
#[derive(Clone, Copy)]
pub struct Collector {
    pub bytes: [u8; line::LONGEST],
    pub len: usize,
    pub long: bool,
}

impl Collector {
    pub fn new() -> Self
        ensures { result ≡ emptied }
    {
        Self {
            bytes: [0; line::LONGEST],
            len: 0,
            long: false,
        }
    }

    pub fn push(mut self, b: u8) -> Self
        ensures { Pushed self b result }
    {
        let n = self.len;
        if n < line::LONGEST {
            self.bytes[n] = b;
            self.len = n + 1;
        } else {
            self.long = true;
        }
        self
    }

    // How many of the bytes are the line's.
    pub fn size(self) -> usize
        ensures { (result ≡ length (begun_of self).bytes) × (result ≤ 80) }
    {
        self.len.min(line::LONGEST)
    }

    pub fn read(self) -> Option<Line>
        ensures { result ≡ shown (command_in (begun_of self)) }
    {
        if self.long {
            return None;
        }
        let n = self.size();
        line::read(&self.bytes[..n])
    }
}
