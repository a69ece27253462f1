// One shift of a dryer tower, played on a probe bank and a memory: what was read, written and refused.
#![tactic(auto)]

mod hours;
mod shift;

use std::io;

fn main(rt: HostRuntime) -> io::Result<()> {
    shift::play(&rt)
}
