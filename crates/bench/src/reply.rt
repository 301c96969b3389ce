// What a command answers, and the line that this prints.
ghost use Rattle.std.specs.Prelude.{◌≤◌, length};

use script::print;
use unit::Unit;

// Nothing was there to be called, a call's answer number, or a message taken: its word is the first len bytes.
// Kept: the number as such, since it is what is printed, and word with len, since no heap is a rule of the project.
#[derive(Clone, Copy)]
pub enum Reply {
    Unknown,
    Answers(u32),
    Took {
        sender: u8,
        number: u32,
        word: [u8; Unit::MOST_DATA],
        len: usize,
    },
}

impl Reply {
    ghost use Rattle.script.specs.Print.{reply_line};
    ghost use Rattle.bench.specs.Commands.{reply_of};
    ghost use Rattle.bench.specs.Prints.{PrintsLine};

    // Prints the reply to a line, and answers how many bytes that took.
    pub fn print(self, line: u32, out: &mut [u8]) -> usize
        requires { 84 ≤ length out.old }
        ensures { PrintsLine (reply_line line (reply_of self)) out.old result out.new }
    {
        match self {
            Reply::Unknown => print::unknown_line(out, line).unwrap(),
            Reply::Answers(a) => print::answer_line(out, line, a).unwrap(),
            Reply::Took {
                sender,
                number,
                word,
                len,
            } => {
                let word = &word[..len.min(Unit::MOST_DATA)];
                print::taken_line(out, line, sender as u32, number, word).unwrap()
            }
        }
    }
}
