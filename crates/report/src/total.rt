// The closing line.
ghost use Rattle.std.specs.Prelude.{Some};
ghost use Rattle.report.specs.Total.{done_text, total_text};

use dryer::tally::Tally;
use std::fmt;

// How many calls there were, what they did, and how many of them were refused.
#[derive(Clone, Copy, Debug, PartialEq, Eq)]
pub struct Total(pub Tally);

impl fmt::Display for Total {
    ghost output = { λ it. Some (total_text it.0) };

    fn fmt<W: fmt::Write>(&self, f: &mut fmt::Formatter<W>) -> fmt::Result {
        let calls = self.0.calls();
        let done = Done(self.0);
        let refused = self.0.refused;
        write!(f, "{calls} calls: {done}, {refused} refused")
    }
}

// The calls that were done, by what they did.
#[derive(Clone, Copy, Debug, PartialEq, Eq)]
struct Done(Tally);

impl fmt::Display for Done {
    ghost output = { λ it. Some (done_text it.0) };

    fn fmt<W: fmt::Write>(&self, f: &mut fmt::Formatter<W>) -> fmt::Result {
        let Tally {
            read,
            written,
            set,
            ..
        } = self.0;
        write!(f, "{read} read, {written} written, {set} set")
    }
}
