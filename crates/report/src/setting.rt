// A setting by the host, and its line.
ghost use Rattle.std.specs.Prelude.{◌≡◌, Some, OnOk, OnErr};
ghost use Rattle.dryer.specs.declared.tally.Call.TheVariants.{Set};
ghost use Rattle.dryer.specs.Tally.{with_call};
ghost use Rattle.report.specs.Setting.{refusal_part, setting_text};

use super::print_and_count;
use super::words::Lead;
use bus::refusal::Refusal;
use dryer::tally::{Call, Tally};
use std::{fmt, io};

// What was to be set, and what the setting answered.
#[derive(Clone, Copy, Debug, PartialEq, Eq)]
pub struct Setting<T> {
    pub what: T,
    pub answer: Result<(), Refusal>,
}

impl<T: fmt::Display> Setting<T> {
    // Prints the line, and counts the call once it is printed.
    pub fn print_and_count(&self, rt: &impl Print, tally: &mut Tally) -> io::Result<()>
        ensures ok { OnOk result (tally.new ≡ with_call Set self.now.answer tally.old) }
        ensures err { OnErr result (tally.new ≡ tally.old) }
    {
        print_and_count(self, Call::Set, &self.answer, rt, tally)
    }
}

impl<T: fmt::Display> fmt::Display for Setting<T> {
    ghost output = { setting_text T.output };

    fn fmt<W: fmt::Write>(&self, f: &mut fmt::Formatter<W>) -> fmt::Result {
        let lead = Lead(Call::Set);
        let what = &self.what;
        let refused = Refused(self.answer);
        write!(f, "{lead}{what}{refused}")
    }
}

// Nothing where a setting was done, else a colon and why it was refused.
#[derive(Clone, Copy, Debug, PartialEq, Eq)]
struct Refused(Result<(), Refusal>);

impl fmt::Display for Refused {
    ghost output = { λ it. Some (refusal_part it.0) };

    fn fmt<W: fmt::Write>(&self, f: &mut fmt::Formatter<W>) -> fmt::Result {
        match self.0 {
            Ok(()) => Ok(()),
            Err(refusal) => write!(f, ": {refusal}"),
        }
    }
}
