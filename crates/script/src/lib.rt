// The bench's language: reading the lines of a script, and writing what they print.
#![tactic(auto)]

pub mod bytes;
pub mod collector;
mod item;
pub mod line;
pub mod print;

pub use item::number;
