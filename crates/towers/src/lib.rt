// A dryer tower as a client of a bus: where its cells are, its control, and one hour of its work.
// All of it works on any bus; where something is not read, the burner's valve is closed.
#![tactic(auto)]

pub mod control;
pub mod tower;
pub mod work;
