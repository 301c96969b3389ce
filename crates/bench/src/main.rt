// The bench program: reads a script from standard input in parts, and prints what each of its lines answers.
#![tactic(auto)]

mod commands;
mod desk;
mod reading;
mod reply;

ghost use Rattle.bench.specs.Reading.{Ready};
ghost use Rattle.bench.specs.Runs.{Turns};

use reading::{Bench, Stage};
use std::io;
use std::io::{Read, Write};

// How many bytes are read at once.
const PART: usize = 64;

// Reads a part of the input, and prints what it prints. Where the input has ended, it prints the end. Answers whether there
// may be more to print.
fn turn(rt: &HostRuntime, b: &mut Bench) -> bool
    requires { Ready b.old }
    ensures { Turns b.old b.new }
{
    let mut part = [0u8; PART];
    let mut out = [0u8; Bench::LONGEST * PART];
    let n = rt.stdin().read(&mut part).unwrap_or(0);
    if n == 0 {
        let len = b.end(&mut out);
        let _ = rt.stdout().write_all(&out[..len]);
        return false;
    }
    let len = b.feed(&part[..n], &mut out);
    let is_written = rt.stdout().write_all(&out[..len]).is_ok();
    is_written && !matches!(b.stage, Stage::Over)
}

// A proved loop has to end, and nothing says that the input does: the count is one that no run uses up.
fn main(rt: HostRuntime) -> io::Result<()> {
    let mut b = Bench::new();
    for _ in 0..u64::MAX {
        if !turn(&rt, &mut b) {
            break;
        }
    }
    Ok(())
}
