// Internal: the two lent slices of a table, the walk and the probe over them, and insert by a stored hash.
// Nothing here is a public call: the functions ask for slices of an allowed shape.
#![tactic(auto)]

pub mod clear;
pub mod insert;
pub mod slices;
pub mod walk;

ghost use Rattle.std.specs.Prelude.{◌≡◌, ◌%◌, ◌≤◌, true, ◌&&◌, nat_le, cond, Some, None};
ghost use Rattle.rules.specs.Sizes.{is_size, window};
ghost use Rattle.rules.specs.Cells.{offered};
ghost use Rattle.cells.specs.Layout.{null, size_in, is_shaped, offered_by};

use hashers::Hasher;

// The record of a table.
#[derive(Clone, Copy)]
pub struct Table {
    pub hasher: Hasher,
    pub live: usize,
}

impl Table {
    // The value of a removed cell.
    pub const NULL: u64 = 0xffff_ffff_ffff_fffe;

    pub const LEAST_SIZE: usize = 8;

    pub const GREATEST_SIZE: usize = 65536;

    pub const EMPTY: Cell = Cell {
        hash: 0,
        key: 0,
        value: Table::NULL,
    };
    // A probe looks at no more positions than this.
    pub const PROBE_LIMIT: usize = 128;
}

// The three words of a cell.
#[derive(Clone, Copy)]
pub struct Cell {
    pub hash: u64,
    pub key: u64,
    pub value: u64,
}

// Refusal 1.
#[derive(Clone, Copy, Debug, PartialEq, Eq)]
pub struct ShapeError;

// Refusal 3.
#[derive(Clone, Copy, Debug, PartialEq, Eq)]
pub struct NullError;

// Whether a value can be offered. Refusal: 3.
pub fn offer(value: u64) -> Result<(), NullError>
    ensures { offered_by result ≡ offered null value }
{
    if value == Table::NULL {
        Err(NullError)
    } else {
        Ok(())
    }
}

// A power of two from the least size to the greatest.
pub fn is_size(size: usize) -> bool
    ensures { result ≡ is_size size }
{
    if size < Table::LEAST_SIZE {
        return false;
    }
    if Table::GREATEST_SIZE < size {
        return false;
    }
    size & (size - 1) == 0
}

// The lengths of the two slices are those of a table of an allowed size.
pub fn is_shaped(words: &[u64], deltas: &[u8]) -> bool
    ensures { result ≡ is_shaped words.now deltas.now }
{
    let size = deltas.len() / 2;
    if is_size(size) {
        if words.len() == 3 * size {
            return deltas.len() == 2 * size;
        }
    }
    false
}

// Check 1 of a call that is lent a table with its record: how many cells the table has, or none where the check fails.
pub fn size_of(words: &[u64], deltas: &[u8], live: usize) -> Option<usize>
    ensures { result ≡ cond (is_shaped words.now deltas.now && nat_le live (size_in deltas.now)) (Some (size_in deltas.now)) None }
{
    let size = deltas.len() / 2;
    (is_shaped(words, deltas) && live <= size).then_some(size)
}

// The cell of a position. A size comes as a number with its fact: calls read it off a length, and a type round it would be taken off at each
// use.
pub fn cell_of(at: u64, size: usize) -> usize
    requires { is_size size ≡ true }
    ensures { result ≡ at % size }
{
    at as usize & (size - 1)
}

// How many positions a probe looks at.
pub fn window_of(size: usize) -> usize
    requires { 1 ≤ size }
    ensures { result ≡ window size }
{
    (size - 1).min(Table::PROBE_LIMIT)
}
