// Six hours of two dryer towers on one board: what was set, read, written and refused.
#![tactic(auto)]

mod hours;
mod parts;
mod play;

use std::io;

fn main(rt: HostRuntime) -> io::Result<()> {
    play::play(&rt)
}
