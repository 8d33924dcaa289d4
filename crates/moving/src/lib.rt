// Internal: the live cells of a table go over into a cleared one. A plain move and a growing table call this. Slices come one by one, as
// in cells::insert.
#![tactic(auto)]

ghost use Rattle.std.specs.Prelude.{true, List, ◌≡◌, ℕ, ◌+◌, ◌*◌, ◌<◌, ◌≤◌, length};
ghost use Rattle.rules.specs.Sizes.{is_size};
ghost use Rattle.rules.specs.Moves.{move_cells, move_all, move_end};
ghost use Rattle.cells.specs.Layout.{Shaped, null, counts_of, fresh_words, fresh_deltas};
ghost use Rattle.moving.specs.Slices.{held_in, clear_held};
ghost use Rattle.moving.specs.Ends.{end_of, end_after, end_totalled, placed, placed_by, into_by};

use cells::clear::{clear_deltas, clear_words};
use cells::insert::{Put, WalkError, insert_stored};
use cells::slices::{hash_at, key_at, value_at};
use cells::{Cell, Table};

// Both slices, which hold so many cells.
pub fn clear_both(words: &mut [u64], deltas: &mut [u8], cells: usize)
    requires { (length words.old ≡ 3 * cells) × (length deltas.old ≡ 2 * cells) }
    ensures { (words.new ≡ fresh_words cells) × (deltas.new ≡ fresh_deltas cells) }
{
    clear_words(words, cells);
    clear_deltas(deltas);
}

// By what the insert of a cell said, the counted cells: a cell that was there before is 5.
fn end_after(said: Put, live: usize) -> Result<usize, WalkError>
    ensures { result ≡ end_after said live }
{
    match said {
        Put::New => Ok(live),
        Put::Full(at) => Err(WalkError::Full(at)),
        Put::Replaced(_) | Put::Revived | Put::Broken => Err(WalkError::Broken),
    }
}

// Cell i goes over where it is live, into a table of `to` cells that counts `live`.
fn move_cell(
    from: &[u64],
    i: usize,
    words: &mut [u64],
    deltas: &mut [u8],
    to: usize,
    live: usize,
) -> Result<usize, WalkError>
    requires { (3 * i + 2 < length from.now) × Shaped to words.old deltas.old }
    ensures { (ds : List ℕ) → placed (end_of result) words.new deltas.new ≡ placed_by (move_cells null (held_in from.now ds) to 1 i (held_in words.old deltas.old) (counts_of live)) words.old deltas.old }
{
    let value = value_at(from, i);
    if value == Table::NULL {
        return Ok(live);
    }
    let hash = hash_at(from, i);
    if hash == 0 {
        return Err(WalkError::Broken);
    }
    let key = key_at(from, i);
    let done = insert_stored(words, deltas, to, live, Cell { hash, key, value });
    end_after(done.said, done.live)
}

// The live cells among the first `size` of the source go over in index order, into a table of `to` cells in the front of
// the slices. So many went over, or the first that did not stops the move.
pub fn move_cells(
    from: &[u64],
    size: usize,
    words: &mut [u64],
    deltas: &mut [u8],
    to: usize,
) -> Result<usize, WalkError>
    requires { (3 * size ≤ length from.now) × Shaped to words.old deltas.old }
    ensures { (ds : List ℕ) → placed (end_of result) words.new deltas.new ≡ placed_by (move_cells null (held_in from.now ds) to size 0 (held_in words.old deltas.old) (counts_of 0)) words.old deltas.old }
{
    let mut live = 0;
    for i in 0..size {
        live = move_cell(from, i, words, deltas, to, live)?;
    }
    Ok(live)
}

// The total must be the source's live.
fn totalled(end: Result<usize, WalkError>, live: usize) -> Result<usize, WalkError>
    ensures { result ≡ end_totalled live end }
{
    let total = end?;
    if total == live {
        return Ok(total);
    }
    Err(WalkError::Broken)
}

// A whole move into clear slices of `cells` cells. Where it stops, they are cleared again, whole.
// The source goes by its words, cells and live: a View would ask for deltas, which no move reads.
pub fn move_into(
    from: &[u64],
    size: usize,
    live: usize,
    words: &mut [u64],
    deltas: &mut [u8],
    cells: usize,
    to: usize,
) -> Result<usize, WalkError>
    requires { (3 * size ≤ length from.now) × (words.old ≡ fresh_words cells) × (deltas.old ≡ fresh_deltas cells) × (is_size to ≡ true) × (to ≤ cells) }
    ensures { (ds : List ℕ) → record { ended = end_of result; words = words.new; deltas = deltas.new } ≡ into_by cells (move_end (move_all null size (held_in from.now ds) (counts_of live) to (clear_held cells)) (move_all null size (held_in from.now ds) (counts_of live) to (clear_held cells)).ended) words.old deltas.old }
{
    let moved = move_cells(from, size, words, deltas, to);
    let end = totalled(moved, live);
    if end.is_err() {
        clear_both(words, deltas, cells);
    }
    end
}
