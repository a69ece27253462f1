// The board of two dryer towers, as its host builds it, sets it and plays an hour on it.
// The towers work on it as on any bus; silent spans that cover none of a tower's own cells change nothing for it.
#![tactic(auto)]

pub mod board;
pub mod hour;
