// What is printed of an address and of a refusal.
ghost use Rattle.std.specs.Prelude.{◌≡◌, Some};
ghost use Rattle.bus.specs.Text.{hex_text, fault_ground, refusal_ground, refusal_text};

use super::refusal::{Fault, Refusal};
use std::error::Error;
use std::fmt;

// A number as addresses are printed: a dollar sign, and at least six hexadecimal digits.
#[derive(Clone, Copy, Debug, PartialEq, Eq)]
pub struct Hex(pub u32);

impl fmt::Display for Hex {
    ghost output = { λ it. Some (hex_text it.0) };

    fn fmt<W: fmt::Write>(&self, f: &mut fmt::Formatter<W>) -> fmt::Result {
        write!(f, "${:06X}", self.0)
    }
}

impl fmt::Display for Fault {
    ghost output = { λ fault. Some (fault_ground fault) };

    fn fmt<W: fmt::Write>(&self, f: &mut fmt::Formatter<W>) -> fmt::Result {
        f.write_str(match self {
            Fault::Fenced { .. } => "the fence does not allow the access",
            Fault::Silent { .. } => "the cell is silent",
            Fault::Fixed { .. } => "the cell is fixed",
            Fault::NotCarried { .. } => "the instruction is not carried",
            Fault::NoAddress { .. } => "the operand has no address",
        })
    }
}

// Why a call is refused, without the numbers.
#[derive(Clone, Copy, Debug, PartialEq, Eq)]
struct Ground(Refusal);

impl fmt::Display for Ground {
    ghost output = { λ it. Some (refusal_ground it.0) };

    fn fmt<W: fmt::Write>(&self, f: &mut fmt::Formatter<W>) -> fmt::Result {
        match self.0 {
            Refusal::AddressTooHigh => f.write_str("an address is above $FFFFFF"),
            Refusal::WindowsOrSpans => {
                f.write_str("there are too many windows or spans, or their order is broken")
            }
            Refusal::Rights => f.write_str("rights are neither 1 nor 3"),
            Refusal::OutOfRange => f.write_str("a number is out of range"),
            Refusal::Sheet => f.write_str("a sheet is malformed"),
            Refusal::Budget => f.write_str("a budget is above 1,000,000"),
            Refusal::GuestFresh => f.write_str("the guest was never reset"),
            Refusal::GuestFaulted => f.write_str("the guest has faulted"),
            Refusal::Fault(fault) => write!(f, "{fault}"),
        }
    }
}

impl fmt::Display for Refusal {
    ghost output = { λ refusal. Some (refusal_text refusal) };

    fn fmt<W: fmt::Write>(&self, f: &mut fmt::Formatter<W>) -> fmt::Result {
        let number = self.number();
        let ground = Ground(*self);
        let address = Hex(self.address());
        let tag = self.tag();
        write!(
            f,
            "refused with {number}, {ground}: address {address}, tag {tag}"
        )
    }
}

impl Error for Refusal {}
