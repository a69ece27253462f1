// A read or a write, and its line.
ghost use Rattle.std.specs.Prelude.{◌≡◌, Some, OnOk, OnErr};
ghost use Rattle.dryer.specs.Tally.{with_call};
ghost use Rattle.report.specs.declared.access.Access.TheVariants.{Read, Write};
ghost use Rattle.report.specs.Access.{call_of, byte_told, access_text};

use super::print_and_count;
use super::words::{Column, Lead, Outcome};
use bus::refusal::Refusal;
use bus::text::Hex;
use dryer::tally::{Call, Tally};
use std::{fmt, io};

// A read or a write of a byte, and what it answered.
#[derive(Clone, Copy, Debug, PartialEq, Eq)]
pub enum Access {
    Read {
        answer: Result<u8, Refusal>,
    },
    Write {
        byte: u8,
        answer: Result<(), Refusal>,
    },
}

impl Access {
    // What it is counted as.
    pub fn call(self) -> Call
        ensures { result ≡ call_of self }
    {
        match self {
            Access::Read { .. } => Call::Read,
            Access::Write { .. } => Call::Write,
        }
    }

    // The byte that was read or written, unless the call was refused.
    pub fn byte(self) -> Result<u8, Refusal>
        ensures { result ≡ byte_told self }
    {
        match self {
            Access::Read { answer } => answer,
            Access::Write { byte, answer } => answer.map(|()| byte),
        }
    }
}

// An access with its address and what is there, which is printed in a column of this width.
#[derive(Clone, Copy, Debug, PartialEq, Eq)]
pub struct Line<'a, const WIDTH: usize> {
    pub what: &'a str,
    pub address: u32,
    pub access: Access,
}

impl<'a, const WIDTH: usize> Line<'a, WIDTH> {
    pub fn read(what: &'a str, address: u32, answer: Result<u8, Refusal>) -> Self
        ensures { result ≡ record { what = what.entry; address = address; access = Read answer } }
    {
        Line {
            what,
            address,
            access: Access::Read { answer },
        }
    }

    pub fn write(what: &'a str, address: u32, byte: u8, answer: Result<(), Refusal>) -> Self
        ensures { result ≡ record { what = what.entry; address = address; access = Write byte answer } }
    {
        Line {
            what,
            address,
            access: Access::Write { byte, answer },
        }
    }

    // Prints the line, and counts the call once it is printed.
    pub fn print_and_count(&self, rt: &impl Print, tally: &mut Tally) -> io::Result<()>
        ensures ok { OnOk result (tally.new ≡ with_call (call_of self.now.access) (byte_told self.now.access) tally.old) }
        ensures err { OnErr result (tally.new ≡ tally.old) }
    {
        print_and_count(self, self.access.call(), &self.access.byte(), rt, tally)
    }
}

impl<const WIDTH: usize> fmt::Display for Line<'_, WIDTH> {
    ghost output = { λ line. Some (access_text WIDTH line.what.now line.address line.access) };

    fn fmt<W: fmt::Write>(&self, f: &mut fmt::Formatter<W>) -> fmt::Result {
        let lead = Lead(self.access.call());
        let address = Hex(self.address);
        let what = Column::<WIDTH>(self.what);
        let outcome = Outcome(self.access.byte());
        write!(f, "{lead}{address} {what} {outcome}")
    }
}
