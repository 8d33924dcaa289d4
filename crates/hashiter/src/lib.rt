// The cursor over a table's live cells, and setting a value at a cell. Every call is defined for any slices and any record.
#![tactic(auto)]

ghost use Rattle.std.specs.Prelude.{List, ◌≡◌, ℕ, ◌+◌, ◌*◌, ◌≤◌, ◌<◌, length, Ok};
ghost use Rattle.hashers.specs.declared.Hasher.{Hasher};
ghost use Rattle.rules.specs.Cursor.{start as start·rule, step_in, step as step·rule, set_at, set_value};
ghost use Rattle.cells.specs.Layout.{params_of, counts_of, view, value_in, lent, done_by};
ghost use Rattle.hashiter.specs.Answers.{stepped, set_done};

use cells::slices::{hash_at, is_live, key_at, store_value, value_at};
pub use cells::{ShapeError, Table};
use cells::{offer, size_of};

// Goes over the live cells in index order: the index of the cell to look at next.
#[derive(Clone, Copy)]
pub struct Cursor {
    pub position: usize,
}

// A cell that a step hands back.
#[derive(Clone, Copy)]
pub struct LiveCell {
    pub index: usize,
    pub key: u64,
    pub value: u64,
}

// What a step says: the next live cell, or none at the end. Refusal: 1.
#[derive(Clone, Copy)]
pub struct Stepped {
    // Past the cell; at the end at S, or where it was beyond S; under 1 as it was.
    pub cursor: Cursor,
    pub said: Result<Option<LiveCell>, ShapeError>,
}

// How setting a value is refused.
#[derive(Clone, Copy, Debug, PartialEq, Eq)]
pub enum SetError {
    // 1
    Shape,
    // 3
    Null,
}

// Behind the check of a step.
fn step_in(words: &[u64], size: usize, position: usize) -> Stepped
    requires { 3 * size ≤ length words.now }
    ensures { (h : Hasher) (ds : List ℕ) → stepped result ≡ step_in (params_of size h) (view words.now ds) (value_in words.now) position }
{
    for i in position..size {
        if is_live(words, i) {
            let past = i + 1;
            return Stepped {
                cursor: Cursor { position: past },
                said: Ok(Some(LiveCell {
                    index: i,
                    key: key_at(words, i),
                    value: value_at(words, i),
                })),
            };
        }
    }
    Stepped {
        cursor: Cursor {
            position: position.max(size),
        },
        said: Ok(None),
    }
}

impl Cursor {
    // Before the first cell.
    pub fn start() -> Cursor
        ensures { result.position ≡ start·rule }
    {
        Cursor { position: 0 }
    }

    // Hands back the next live cell in index order with the cursor past it, or the end. Refusal: 1.
    pub fn step(self, words: &[u64], deltas: &[u8], table: Table) -> Stepped
        ensures { stepped result ≡ step·rule (lent words.now deltas.now table) self.position }
    {
        let position = self.position;
        let live = table.live;
        let Some(size) = size_of(words, deltas, live) else {
            return Stepped {
                cursor: Cursor { position },
                said: Err(ShapeError),
            };
        };
        step_in(words, size, position)
    }
}

// Behind the checks of setting: the value that was there, or none at a cell that is not live.
#[tactic(auto, unfolding(rules::specs::Cursor::set_at, cells::specs::Layout::done_by))]
fn set_in(words: &mut [u64], i: usize, value: u64) -> Option<u64>
    requires { 3 * i + 2 < length words.old }
    ensures { (h : Hasher) (S live : ℕ) (ds : List ℕ) → set_done (Ok result) live words.new ds ≡ done_by (set_at (params_of S h) (view words.old ds) (value_in words.old) (counts_of live) i value) words.old ds }
{
    let hash = hash_at(words, i);
    let old = value_at(words, i);
    if hash == 0 {
        return None;
    }
    if old == Table::NULL {
        return None;
    }
    store_value(words, i, value);
    Some(old)
}

// Sets the value of the live cell of that index, and says what stood there; none at a cell that is not live. The record stays.
// Refusals: 1, 3.
pub fn set_value(
    words: &mut [u64],
    deltas: &[u8],
    table: Table,
    index: usize,
    value: u64,
) -> Result<Option<u64>, SetError>
    ensures { set_done result table.live words.new deltas.now ≡ done_by (set_value (lent words.old deltas.now table) index value) words.old deltas.now }
{
    let Some(size) = size_of(words, deltas, table.live) else {
        return Err(SetError::Shape);
    };
    if index < size {
        let Ok(()) = offer(value) else {
            return Err(SetError::Null);
        };
        return Ok(set_in(words, index, value));
    }
    Err(SetError::Shape)
}
