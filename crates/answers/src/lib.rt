// Why a call refuses, as one type, and the number of each refusal (01, "Answer numbers").
#![tactic(auto)]

ghost use Rattle.std.specs.Prelude.{◌≡◌, Some};
ghost use Rattle.answers.specs.Answers.{number_of, text_of, answer_of};

use std::error::Error;
use std::fmt;

// In the order of their numbers, 1 to 18.
#[derive(Clone, Copy, Debug, PartialEq, Eq)]
pub enum Refusal {
    Unsound = 1,
    CannotOpen,
    NotAFrame,
    OtherGroup,
    NoSuchUnit,
    OwnFrame,
    Impossible,
    AcceptedBefore,
    EarlierMissing,
    NamesMissing,
    AckFell,
    NoPlace,
    TooLong,
    NoNumberLeft,
    WindowShut,
    OutputTooShort,
    ForAnother,
    Nothing,
}

impl From<Refusal> for u32 {
    ghost from_gives = { λ r n. n ≡ number_of r };

    fn from(r: Refusal) -> u32 {
        r as u32
    }
}

impl fmt::Display for Refusal {
    ghost output = { λ r. Some (text_of r) };
    // The options of a hole, such as a width, change nothing.
    ghost styled_output = { λ r spec. Some (text_of r) };

    fn fmt<W: fmt::Write>(&self, f: &mut fmt::Formatter<W>) -> fmt::Result {
        f.write_str(match self {
            Refusal::Unsound => "the unit is closed or not sound",
            Refusal::CannotOpen => "opening outside the ranges",
            Refusal::NotAFrame => "not a frame",
            Refusal::OtherGroup => "of another group",
            Refusal::NoSuchUnit => "no such unit, or a wrong count of ACK",
            Refusal::OwnFrame => "the unit's own frame",
            Refusal::Impossible => "a number that cannot be",
            Refusal::AcceptedBefore => "accepted before",
            Refusal::EarlierMissing => "an earlier number of its sender is missing",
            Refusal::NamesMissing => "it names a message that is missing here",
            Refusal::AckFell => "an ACK below one heard before",
            Refusal::NoPlace => "the sender has no free place",
            Refusal::TooLong => "data over 48 bytes",
            Refusal::NoNumberLeft => "no number is left to send",
            Refusal::WindowShut => "window shut",
            Refusal::OutputTooShort => "lent output too short",
            Refusal::ForAnother => "request for another unit",
            Refusal::Nothing => "nothing missing, to resend, kept or to take",
        })
    }
}

impl Error for Refusal {}

// The answer number of a call: 0 where it is done.
pub fn answer<T>(given: &Result<T, Refusal>) -> u32
    ensures { result ≡ answer_of given.now }
{
    match given {
        Ok(_) => 0,
        Err(r) => u32::from(*r),
    }
}
