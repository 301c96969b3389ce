// The script as it is read, byte by byte: the line that is not ended yet, and how far the script has come.
ghost use Rattle.std.specs.Prelude.{◌*◌, ◌≤◌, length};
ghost use Rattle.script.specs.Shown.{group_in};
ghost use Rattle.script.specs.Gathered.{begun_of};
ghost use Rattle.script.specs.Reader.{command_in, tells, read_line, read_part};
ghost use Rattle.bench.specs.Reading.{CanGo, Ready, stage_of, reader_of, begins_with, stage_said, line_said, part_said, Steps, Moves, Starts, Reads, Ends};

use crate::commands;
use crate::desk::Desk;
use script::collector::Collector;
use script::line::Line;
use script::{line, print};

// Which line is to come: the first, line `number` with a group on the bench, or none: no line is read any more.
#[derive(Clone, Copy)]
pub enum Stage {
    First,
    Later { desk: Desk, number: u32 },
    Over,
}

#[derive(Clone, Copy)]
pub struct Bench {
    pub line: Collector,
    pub stage: Stage,
}

// The first line has ended: the next stage, and how many bytes were printed.
fn begin(shown: Option<Line>, out: &mut [u8]) -> (Stage, usize)
    requires { 84 ≤ length out.old }
    ensures { Steps (begins_with (group_in shown)) out.old result out.new }
{
    let Some(g) = line::group_of(shown) else {
        return (Stage::Over, print::no_group_line(out).unwrap());
    };
    let desk = Desk::open(g.n as u8, g.w as u8);
    (
        Stage::Later { desk, number: 2 },
        print::group_line(out, g.n, g.w).unwrap(),
    )
}

impl Stage {
    // The last line that is read: the 64th later one.
    pub const LAST: u32 = 65;

    // A line has ended: the next stage, and how many bytes were printed.
    fn step(self, line: Collector, out: &mut [u8]) -> (Stage, usize)
        requires { CanGo self × (84 ≤ length out.old) }
        ensures { Moves (stage_said self line) (tells (stage_of self) (command_in (begun_of line))) out.old result out.new }
    {
        match self {
            Stage::First => begin(line.read(), out),
            Stage::Later { mut desk, number } => {
                let text = &line.bytes[..line.size()];
                let len = commands::act(&mut desk, line.read(), text).print(number, out);
                if number < Self::LAST {
                    let number = number + 1;
                    return (Stage::Later { desk, number }, len);
                }
                (Stage::Over, len)
            }
            Stage::Over => (Stage::Over, 0),
        }
    }
}

impl Bench {
    // The most bytes that a line prints.
    // Kept: that there is room for them stands in five contracts. `feed` lends on what is left of its output, and that is a
    // slice of any length: an array for each line would have to be copied there.
    pub const LONGEST: usize = 84;

    pub fn new() -> Self
        ensures { Starts result }
    {
        Self {
            line: Collector::new(),
            stage: Stage::First,
        }
    }

    // The line has ended: what it prints stands at the front of the output.
    fn end_line(&mut self, out: &mut [u8]) -> usize
        requires { Ready self.old × (84 ≤ length out.old) }
        ensures { Reads (line_said self.old) (read_line (reader_of self.old)) 84 out.old self.new result out.new }
    {
        let (stage, len) = self.stage.step(self.line, out);
        self.line = Collector::new();
        self.stage = stage;
        len
    }

    // A part of the input is read: what it prints stands at the front of the output.
    pub fn feed(&mut self, part: &[u8], out: &mut [u8]) -> usize
        requires { Ready self.old × (84 * length part.now ≤ length out.old) }
        ensures { Reads (part_said self.old part.now) (read_part (reader_of self.old) part.now) (84 * length part.now) out.old self.new result out.new }
    {
        let mut len = 0;
        for x in part {
            if *x == b'\n' {
                len += self.end_line(&mut out[len..]);
            } else {
                self.line = self.line.push(*x);
            }
        }
        len
    }

    // The input has ended: a last line without a line feed counts.
    pub fn end(mut self, out: &mut [u8]) -> usize
        requires { Ready self × (84 ≤ length out.old) }
        ensures { Ends self out.old result out.new }
    {
        if 0 < self.line.size() {
            return self.end_line(out);
        }
        match self.stage {
            Stage::First => print::no_group_line(out).unwrap(),
            _ => 0,
        }
    }
}
