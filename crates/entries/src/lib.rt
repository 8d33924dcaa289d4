// Internal: the entry record and the checks of its use, for the calls of hashentry and entryinsert.
#![tactic(auto)]

pub mod looking;
pub mod record;
