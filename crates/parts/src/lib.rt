// A growing table lies in the front of one of two lent halves of C cells each. Here are its record, and its parts: the front of the
// half in use. Every call is defined for any slices and any record.
#![tactic(auto)]

pub mod internal;
mod record;
mod used;

use cells::Table;
pub use record::{table, with_table};
pub use used::{used_deltas, used_words};

// The half in use.
#[derive(Clone, Copy)]
pub enum Half {
    Lower,
    Upper,
}

// The record of a growing table.
#[derive(Clone, Copy)]
pub struct Growing {
    pub table: Table,
    pub size: usize,
    pub half: Half,
}
