// What is printed of calls: a line for each read, write and setting, and a closing line with their counts.
// Each line is a type, and its `output` says exactly which text is printed of it.
#![tactic(auto)]

ghost use Rattle.std.specs.Prelude.{◌≡◌, OnOk, OnErr};
ghost use Rattle.dryer.specs.Tally.{with_call};

use bus::refusal::Refusal;
use dryer::tally::{Call, Tally};
use std::{fmt, io};

pub mod access;
pub mod setting;
pub mod total;
pub mod tower;
pub mod words;

// Prints the line of a call, and counts the call once it is printed.
pub(crate) fn print_and_count<L: fmt::Display, T>(
    line: &L,
    call: Call,
    answer: &Result<T, Refusal>,
    rt: &impl Print,
    tally: &mut Tally,
) -> io::Result<()>
    ensures ok { OnOk result (tally.new ≡ with_call call answer.now tally.old) }
    ensures err { OnErr result (tally.new ≡ tally.old) }
{
    println!(rt; "{line}")?;
    tally.count(call, answer);
    Ok(())
}
