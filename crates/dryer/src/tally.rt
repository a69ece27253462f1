// How many calls were done, by what they did, and how many were refused.
ghost use Rattle.std.specs.Prelude.{◌≡◌};
ghost use Rattle.dryer.specs.Tally.{none, all, more, with_call, CountedOnce};

use bus::refusal::Refusal;

// What a call does: reads a bus, writes to one, or sets something of the plant.
#[derive(Clone, Copy, Debug, PartialEq, Eq)]
pub enum Call {
    Read,
    Write,
    Set,
}

#[derive(Clone, Copy, Debug, Default, PartialEq, Eq)]
pub struct Tally {
    pub read: u32,
    pub written: u32,
    pub set: u32,
    pub refused: u32,
}

impl Tally {
    pub fn new() -> Tally
        ensures { result ≡ none }
    {
        Tally::default()
    }

    // All calls that were counted.
    pub fn calls(self) -> u64
        ensures { result ≡ all self }
    {
        self.read as u64 + self.written as u64 + self.set as u64 + self.refused as u64
    }

    // Counts a call by what it answered.
    pub fn count<T>(&mut self, call: Call, answer: &Result<T, Refusal>)
        ensures tally { self.new ≡ with_call call answer.now self.old }
        ensures once { CountedOnce self.old self.new }
    {
        match (call, answer) {
            (_, Err(_)) => count_one(&mut self.refused),
            (Call::Read, Ok(_)) => count_one(&mut self.read),
            (Call::Write, Ok(_)) => count_one(&mut self.written),
            (Call::Set, Ok(_)) => count_one(&mut self.set),
        }
    }
}

// A count stops at the largest number that it can hold.
fn count_one(count: &mut u32)
    ensures { count.new ≡ more count.old }
{
    *count = count.saturating_add(1);
}
