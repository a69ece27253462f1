// What the lines are made of.
ghost use Rattle.std.specs.Prelude.{Some};
ghost use Rattle.report.specs.Words.{lead, outcome, column, readings_text};

use bus::refusal::Refusal;
use dryer::plant::Readings;
use dryer::tally::Call;
use std::fmt;

// How a line begins: with what the call does.
#[derive(Clone, Copy, Debug, PartialEq, Eq)]
pub(crate) struct Lead(pub Call);

impl fmt::Display for Lead {
    ghost output = { λ it. Some (lead it.0) };

    fn fmt<W: fmt::Write>(&self, f: &mut fmt::Formatter<W>) -> fmt::Result {
        f.write_str(match self.0 {
            Call::Read => "  read  ",
            Call::Write => "  write ",
            Call::Set => "  set   ",
        })
    }
}

// A byte, or why there is none.
#[derive(Clone, Copy, Debug, PartialEq, Eq)]
pub(crate) struct Outcome(pub Result<u8, Refusal>);

impl fmt::Display for Outcome {
    ghost output = { λ it. Some (outcome it.0) };

    fn fmt<W: fmt::Write>(&self, f: &mut fmt::Formatter<W>) -> fmt::Result {
        match self.0 {
            Ok(byte) => write!(f, "{byte}"),
            Err(refusal) => write!(f, "{refusal}"),
        }
    }
}

// A text at the left of a column of this width.
#[derive(Clone, Copy, Debug, PartialEq, Eq)]
pub(crate) struct Column<'a, const WIDTH: usize>(pub &'a str);

impl<const WIDTH: usize> fmt::Display for Column<'_, WIDTH> {
    ghost output = { λ it. Some (column WIDTH it.0.now) };

    #[tactic(auto, using(crate::proofs::Columns::styled_column))]
    fn fmt<W: fmt::Write>(&self, f: &mut fmt::Formatter<W>) -> fmt::Result {
        let text = self.0;
        write!(f, "{text:<WIDTH$}")
    }
}

// What the probes of a tower measure.
#[derive(Clone, Copy, Debug, PartialEq, Eq)]
pub struct Measured(pub Readings);

impl fmt::Display for Measured {
    ghost output = { λ it. Some (readings_text it.0) };

    fn fmt<W: fmt::Write>(&self, f: &mut fmt::Formatter<W>) -> fmt::Result {
        let Readings {
            moisture,
            temperature,
        } = self.0;
        write!(f, "moisture {moisture}, temperature {temperature}")
    }
}
