// One dryer tower as a client of a bus: what the host sets, what the control reads and sets, the log, and the count of calls.
// The control works on any bus; where a probe is silent it closes the burner's valve.
#![tactic(auto)]

pub mod control;
pub mod log;
pub mod plant;
pub mod tally;
pub mod work;
