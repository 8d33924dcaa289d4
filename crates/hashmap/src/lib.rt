// The table of fixed size: two lent slices and a record by value. Every call is defined for any slices and any record: a value that
// held all three would have nothing that is always true of it, and docs/API.md and the laws of outcomes name the three.
#![tactic(auto)]

ghost use Rattle.std.specs.Prelude.{◌≡◌};
ghost use Rattle.rules.specs.Calls.{find_in, remove_in, find as find·rule, remove as remove·rule, insert as insert·rule};
ghost use Rattle.cells.specs.Layout.{null, view, value_in, counts_of, lent, done_by, left_by, Shaped};
ghost use Rattle.cells.specs.Workers.{walk_failed, worker_said};
ghost use Rattle.hashmap.specs.Answers.{find_answer, remove_done, remove_left, insert_failed, insert_said, insert_left, clear_left, clear_rule};

use cells::clear::{clear_deltas, clear_words};
pub use cells::insert::{FullAt, InsertSaid};
use cells::insert::{Put, WalkError, insert_stored};
use cells::slices::{store_value, value_at};
use cells::walk::{Stop, View};
pub use cells::{ShapeError, Table};
use cells::{Cell, cell_of, is_shaped, offer, size_of};
use hashers::{Hasher, hash_of};

// How a lookup or a remove is refused.
#[derive(Clone, Copy, Debug, PartialEq, Eq)]
pub enum LookupError {
    // 1
    Shape,
    // 2
    ZeroHash,
    // 5
    Broken,
}

// What a find says: the value, or none where the key is absent.
#[derive(Clone, Copy, PartialEq, Eq)]
pub struct FindAnswer {
    pub said: Result<Option<u64>, LookupError>,
    // How many cells were looked at.
    pub looked: usize,
}

// What a remove says: the value removed, or none where the key is absent. A struct beside InsertAnswer and no generic one: docs/API.md
// and the laws of outcomes name each.
#[derive(Clone, Copy)]
pub struct RemoveAnswer {
    pub said: Result<Option<u64>, LookupError>,
    pub looked: usize,
    pub table: Table,
}

// How an insert is refused.
#[derive(Clone, Copy, Debug, PartialEq, Eq)]
pub enum InsertError {
    // 1
    Shape,
    // 2
    ZeroHash,
    // 3
    Null,
    // 4
    Full(FullAt),
    // 5
    Broken,
}

impl From<WalkError> for InsertError {
    ghost from_gives = { λ e r. insert_failed r ≡ walk_failed e };

    fn from(e: WalkError) -> InsertError {
        match e {
            WalkError::Full(at) => InsertError::Full(at),
            WalkError::Broken => InsertError::Broken,
        }
    }
}

// A worker's answer, its errors among those of the call.
fn as_said(said: Put) -> Result<InsertSaid, InsertError>
    ensures { insert_said result ≡ worker_said said }
{
    Ok(said.answer()?)
}

#[derive(Clone, Copy)]
pub struct InsertAnswer {
    pub said: Result<InsertSaid, InsertError>,
    pub looked: usize,
    pub table: Table,
}

// Makes a fresh table of the lent size: every cell empty, every delta 0, live 0. Refusal: 1.
pub fn clear(words: &mut [u64], deltas: &mut [u8], hasher: Hasher) -> Result<Table, ShapeError>
    ensures { clear_left result words.new deltas.new ≡ clear_rule words.old deltas.old hasher }
{
    if is_shaped(words, deltas) {
        let size = deltas.len() / 2;
        clear_words(words, size);
        clear_deltas(deltas);
        return Ok(Table { hasher, live: 0 });
    }
    Err(ShapeError)
}

// Behind the checks of find.
fn find_in(table: &View<'_>, hash: u64, key: u64) -> FindAnswer
    ensures { find_answer result ≡ find_in table.now.size null (view table.now.words.now table.now.deltas.now) (value_in table.now.words.now) hash key }
{
    let walked = table.walk_to(hash, key);
    let looked = walked.looked;
    match walked.stop {
        Stop::Met(at) => {
            let value = value_at(table.words, cell_of(at, table.size));
            if value == Table::NULL {
                return FindAnswer {
                    said: Ok(None),
                    looked,
                };
            }
            FindAnswer {
                said: Ok(Some(value)),
                looked,
            }
        }
        Stop::Tail(_) => FindAnswer {
            said: Ok(None),
            looked,
        },
        Stop::Broken => FindAnswer {
            said: Err(LookupError::Broken),
            looked,
        },
    }
}

// Looks a key up. Refusals: 1, 2, then 5 from the walk.
pub fn find(words: &[u64], deltas: &[u8], table: Table, key: u64) -> FindAnswer
    ensures { find_answer result ≡ find·rule (lent words.now deltas.now table) key }
{
    let Some(size) = size_of(words, deltas, table.live) else {
        return FindAnswer {
            said: Err(LookupError::Shape),
            looked: 0,
        };
    };
    let hash = hash_of(table.hasher, key);
    if hash == 0 {
        return FindAnswer {
            said: Err(LookupError::ZeroHash),
            looked: 0,
        };
    }
    let view = View {
        words,
        deltas,
        size,
    };
    find_in(&view, hash, key)
}

// Inserts a value under a key, or replaces the one there. Refusals: 1, 3, 2, then 4 or 5 from the walk.
pub fn insert(
    words: &mut [u64],
    deltas: &mut [u8],
    table: Table,
    key: u64,
    value: u64,
) -> InsertAnswer
    ensures { insert_left result words.new deltas.new ≡ left_by (insert·rule (lent words.old deltas.old table) key value) table words.old deltas.old }
{
    let hasher = table.hasher;
    let live = table.live;
    let Some(size) = size_of(words, deltas, live) else {
        return InsertAnswer {
            said: Err(InsertError::Shape),
            looked: 0,
            table,
        };
    };
    let Ok(()) = offer(value) else {
        return InsertAnswer {
            said: Err(InsertError::Null),
            looked: 0,
            table,
        };
    };
    let hash = hash_of(hasher, key);
    if hash == 0 {
        return InsertAnswer {
            said: Err(InsertError::ZeroHash),
            looked: 0,
            table,
        };
    }
    let done = insert_stored(words, deltas, size, live, Cell { hash, key, value });
    InsertAnswer {
        said: as_said(done.said),
        looked: done.looked,
        table: Table {
            hasher,
            live: done.live,
        },
    }
}

// Removes a key: its value becomes null, and nothing else changes. Refusals: 1, 2, then 5 from the walk.
pub fn remove(words: &mut [u64], deltas: &[u8], table: Table, key: u64) -> RemoveAnswer
    ensures { remove_left result words.new deltas.now ≡ left_by (remove·rule (lent words.old deltas.now table) key) table words.old deltas.now }
{
    let hasher = table.hasher;
    let live = table.live;
    let Some(size) = size_of(words, deltas, live) else {
        return RemoveAnswer {
            said: Err(LookupError::Shape),
            looked: 0,
            table,
        };
    };
    let hash = hash_of(hasher, key);
    if hash == 0 {
        return RemoveAnswer {
            said: Err(LookupError::ZeroHash),
            looked: 0,
            table,
        };
    }
    let done = remove_in(words, deltas, size, live, hash, key);
    RemoveAnswer {
        said: done.said,
        looked: done.looked,
        table: Table {
            hasher,
            live: done.live,
        },
    }
}

#[derive(Clone, Copy)]
struct Removing {
    said: Result<Option<u64>, LookupError>,
    looked: usize,
    live: usize,
}

// Behind the checks of remove.
fn remove_in(
    words: &mut [u64],
    deltas: &[u8],
    size: usize,
    live: usize,
    hash: u64,
    key: u64,
) -> Removing
    requires { Shaped size words.old deltas.now }
    ensures { remove_done result words.new deltas.now ≡ done_by (remove_in size null (view words.old deltas.now) (value_in words.old) (counts_of live) hash key) words.old deltas.now }
{
    let view = View {
        words,
        deltas,
        size,
    };
    let walked = view.walk_to(hash, key);
    let looked = walked.looked;
    match walked.stop {
        Stop::Met(at) => {
            let i = cell_of(at, size);
            let old = value_at(words, i);
            if old == Table::NULL {
                return Removing {
                    said: Ok(None),
                    looked,
                    live,
                };
            }
            if live == 0 {
                return Removing {
                    said: Err(LookupError::Broken),
                    looked,
                    live,
                };
            }
            store_value(words, i, Table::NULL);
            Removing {
                said: Ok(Some(old)),
                looked,
                live: live - 1,
            }
        }
        Stop::Tail(_) => Removing {
            said: Ok(None),
            looked,
            live,
        },
        Stop::Broken => Removing {
            said: Err(LookupError::Broken),
            looked,
            live,
        },
    }
}
