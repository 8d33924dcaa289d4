// Insert by a stored hash, below the checks of hash and value. The slices come one by one with the size: a struct that held them to be
// written would owe in each clause that it keeps its references.
ghost use Rattle.std.specs.Prelude.{◌≡◌, ℕ, ◌+◌, ◌*◌, ◌%◌, ◌<◌, ◌≤◌, true, ◌≢◌, List, length};
ghost use Rattle.rules.specs.Sizes.{is_size};
ghost use Rattle.rules.specs.Walk.{walk};
ghost use Rattle.rules.specs.Calls.{insert_met, insert_stored, link_from};
ghost use Rattle.rules.specs.Answers.{settle, new, fill, unlinked};
ghost use Rattle.steps.specs.Steps.{Ends};
ghost use Rattle.cells.specs.Layout.{Shaped, null, view, hash_in, value_in, linked, counts_of};
ghost use Rattle.cells.specs.Workers.{stop_of, answer_of, InsertedBy, insert_tail};

use crate::slices::{fill_cell, hash_at, set_first, set_second, store_value, value_at};
use crate::walk::{Stop, View, Walked};
use crate::{Cell, Table, cell_of, window_of};
use std::num::wrapping_add_u64;

// What an insert that is not refused says.
#[derive(Clone, Copy)]
pub enum InsertSaid {
    New,
    Replaced(u64),
    Revived,
}

// What Full carries: the position past the window.
#[derive(Clone, Copy, Debug, PartialEq, Eq)]
pub struct FullAt {
    pub position: u64,
}

// How an insert's walk is refused.
#[derive(Clone, Copy, Debug, PartialEq, Eq)]
pub enum WalkError {
    // 4
    Full(FullAt),
    // 5
    Broken,
}

// What an insert's worker says, refusals 4 and 5 among its cases. A Result of two enums was tried, and has two tags to write and to test:
// inserts took 11 to 14 per cent more instructions by it (compare/bench).
#[derive(Clone, Copy)]
pub enum Put {
    New,
    Replaced(u64),
    Revived,
    // 4
    Full(FullAt),
    // 5
    Broken,
}

impl Put {
    // As a Result, for a caller that hands a refusal on.
    pub fn answer(self) -> Result<InsertSaid, WalkError>
        ensures { result ≡ answer_of self }
    {
        match self {
            Put::New => Ok(InsertSaid::New),
            Put::Replaced(old) => Ok(InsertSaid::Replaced(old)),
            Put::Revived => Ok(InsertSaid::Revived),
            Put::Full(at) => Err(WalkError::Full(at)),
            Put::Broken => Err(WalkError::Broken),
        }
    }
}

// What a worker did: the answer, the cells looked at, and live afterwards.
#[derive(Clone, Copy)]
pub struct Inserted {
    pub said: Put,
    pub looked: usize,
    pub live: usize,
    // The cell that was changed; any where none was: its one reader comes after the answer was Ok, so a tag would be tested twice.
    pub at: usize,
}

// Cell i was met: its value is replaced, or it is revived.
fn insert_met(
    words: &mut [u64],
    size: usize,
    live: usize,
    i: usize,
    value: u64,
    looked: usize,
) -> Inserted
    requires { (3 * i + 2 < length words.old) × (size ≤ 65536) }
    ensures { (ds : List ℕ) → InsertedBy result (insert_met size null (counts_of live) looked i (value_in words.old i) value) words.old ds words.new ds }
{
    let old = value_at(words, i);
    if old == Table::NULL {
        if live < size {
            store_value(words, i, value);
            return Inserted {
                said: Put::Revived,
                looked,
                live: live + 1,
                at: i,
            };
        }
        return Inserted {
            said: Put::Broken,
            looked,
            live,
            at: i,
        };
    }
    store_value(words, i, value);
    Inserted {
        said: Put::Replaced(old),
        looked,
        live,
        at: i,
    }
}

// The home, cell i, is empty.
pub fn insert_home(words: &mut [u64], size: usize, live: usize, i: usize, cell: Cell) -> Inserted
    requires { (3 * i + 2 < length words.old) × (size ≤ 65536) }
    ensures { (ds : List ℕ) → InsertedBy result (settle size (counts_of live) 1 new (fill i cell.hash cell.key cell.value unlinked)) words.old ds words.new ds }
{
    if live < size {
        fill_cell(words, i, cell);
        return Inserted {
            said: Put::New,
            looked: 1,
            live: live + 1,
            at: i,
        };
    }
    Inserted {
        said: Put::Broken,
        looked: 1,
        live,
        at: i,
    }
}

// The distance of a new cell, into the home's first delta where no link was followed, else into the tail's second.
fn link(deltas: &mut [u8], size: usize, looked: usize, hash: u64, tail: u64, d: usize)
    requires { (is_size size ≡ true) × (2 * size ≤ length deltas.old) × (d < 256) }
    ensures { deltas.new ≡ linked (link_from size looked hash tail d) deltas.old }
{
    if looked == 1 {
        set_first(deltas, cell_of(hash, size), d);
    } else {
        set_second(deltas, cell_of(tail, size), d);
    }
}

// The key was not met: the walk ended at the tail after so many looks.
fn insert_tail(
    words: &mut [u64],
    deltas: &mut [u8],
    size: usize,
    live: usize,
    cell: Cell,
    tail: u64,
    looked: usize,
) -> Inserted
    requires { Shaped size words.old deltas.old × (looked ≤ size) }
    ensures { InsertedBy result (insert_tail size (view words.old deltas.old) (counts_of live) looked cell.hash cell.key cell.value tail) words.old deltas.old words.new deltas.new }
{
    let count = window_of(size);
    let view = View {
        words,
        deltas,
        size,
    };
    match view.probe_from(count, tail) {
        Some(d) => {
            if live < size {
                let at = cell_of(wrapping_add_u64(tail, d as u64), size);
                fill_cell(words, at, cell);
                link(deltas, size, looked, cell.hash, tail, d);
                return Inserted {
                    said: Put::New,
                    looked: looked + d,
                    live: live + 1,
                    at,
                };
            }
            Inserted {
                said: Put::Broken,
                looked: looked + d,
                live,
                at: 0,
            }
        }
        None => {
            let position = wrapping_add_u64(tail, count as u64 + 1);
            Inserted {
                said: Put::Full(FullAt { position }),
                looked: looked + count,
                live,
                at: 0,
            }
        }
    }
}

// Past a home that is taken, from where the walk stopped.
pub fn insert_walked(
    words: &mut [u64],
    deltas: &mut [u8],
    size: usize,
    live: usize,
    cell: Cell,
    walked: Walked,
) -> Inserted
    requires { Shaped size words.old deltas.old × (hash_in words.old (cell.hash % size) ≢ 0) × Ends (stop_of walked.stop) walked.looked (walk size (view words.old deltas.old) cell.hash cell.key) }
    ensures { InsertedBy result (insert_stored size null (view words.old deltas.old) (value_in words.old) (counts_of live) cell.hash cell.key cell.value) words.old deltas.old words.new deltas.new }
{
    let looked = walked.looked;
    match walked.stop {
        Stop::Met(at) => insert_met(words, size, live, cell_of(at, size), cell.value, looked),
        Stop::Tail(at) => insert_tail(words, deltas, size, live, cell, at, looked),
        Stop::Broken => Inserted {
            said: Put::Broken,
            looked,
            live,
            at: 0,
        },
    }
}

// An empty home is used at once; else the walk decides.
pub fn insert_stored(
    words: &mut [u64],
    deltas: &mut [u8],
    size: usize,
    live: usize,
    cell: Cell,
) -> Inserted
    requires { Shaped size words.old deltas.old }
    ensures { InsertedBy result (insert_stored size null (view words.old deltas.old) (value_in words.old) (counts_of live) cell.hash cell.key cell.value) words.old deltas.old words.new deltas.new }
{
    let home = cell_of(cell.hash, size);
    if hash_at(words, home) == 0 {
        return insert_home(words, size, live, home, cell);
    }
    let view = View {
        words,
        deltas,
        size,
    };
    let walked = view.walk_to(cell.hash, cell.key);
    insert_walked(words, deltas, size, live, cell, walked)
}
