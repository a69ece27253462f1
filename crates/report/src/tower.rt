// The lines of a tower's work in an hour.
ghost use Rattle.std.specs.Prelude.{◌≡◌, [], ◌∷◌, Some};
ghost use Rattle.report.specs.Tower.{log_text, work_text, line_texts, log_lines, work_lines, joined};

use super::access::Line;
use bus::refusal::Refusal;
use dryer::control::{Places, Round};
use std::fmt;

// What the control read and set, and what the log answered where there was something to note.
#[derive(Clone, Copy, Debug, PartialEq, Eq)]
pub struct Work<const WIDTH: usize> {
    pub at: Places,
    pub log_at: u32,
    pub round: Round,
    pub noted: Option<Result<(), Refusal>>,
}

impl<const WIDTH: usize> Work<WIDTH> {
    // Its lines in their order, of which `Display` is the whole text. A program prints them one at a time, so that those before a print that fails are
    // out.
    pub fn lines(&self) -> [Option<Line<'static, WIDTH>>; 4]
        ensures lines { line_texts WIDTH result ≡ work_lines WIDTH self.now }
        ensures text { joined (line_texts WIDTH result) ≡ work_text WIDTH self.now }
    {
        let at = self.at;
        let round = self.round;
        [
            Some(Line::read("moisture", at.moisture, round.moisture)),
            Some(Line::read("temperature", at.temperature, round.temperature)),
            Some(Line::write("valve", at.valve, round.opening, round.valve)),
            self.log_line(),
        ]
    }

    // The line of the log; there is none where the moisture was not read or not noted.
    fn log_line(&self) -> Option<Line<'static, WIDTH>>
        ensures { line_texts WIDTH (result ∷ []) ≡ log_lines WIDTH self.now.log_at self.now.round.moisture self.now.noted }
    {
        match (self.round.moisture, self.noted) {
            (Ok(moisture), Some(answer)) => {
                Some(Line::write("log", self.log_at, moisture, answer))
            }
            _ => None,
        }
    }
}

impl<const WIDTH: usize> fmt::Display for Work<WIDTH> {
    ghost output = { λ work. Some (work_text WIDTH work) };

    fn fmt<W: fmt::Write>(&self, f: &mut fmt::Formatter<W>) -> fmt::Result {
        let at = self.at;
        let round = self.round;
        let moisture = Line::<WIDTH>::read("moisture", at.moisture, round.moisture);
        let temperature = Line::<WIDTH>::read("temperature", at.temperature, round.temperature);
        let valve = Line::<WIDTH>::write("valve", at.valve, round.opening, round.valve);
        let log = Log::<WIDTH> {
            address: self.log_at,
            moisture: round.moisture,
            noted: self.noted,
        };
        write!(f, "{moisture}\n{temperature}\n{valve}{log}")
    }
}

// The end of the line before, and the line of the log; nothing where the moisture was not read or not noted.
#[derive(Clone, Copy, Debug, PartialEq, Eq)]
struct Log<const WIDTH: usize> {
    address: u32,
    moisture: Result<u8, Refusal>,
    noted: Option<Result<(), Refusal>>,
}

impl<const WIDTH: usize> fmt::Display for Log<WIDTH> {
    ghost output = { λ log. Some (log_text WIDTH log.address log.moisture log.noted) };

    fn fmt<W: fmt::Write>(&self, f: &mut fmt::Formatter<W>) -> fmt::Result {
        match (self.moisture, self.noted) {
            (Ok(moisture), Some(answer)) => {
                let line = Line::<WIDTH>::write("log", self.address, moisture, answer);
                write!(f, "\n{line}")
            }
            _ => Ok(()),
        }
    }
}
