// Internal: the insert of a Vacant entry. What writes takes its slices one by one, as cells::insert.
ghost use Rattle.std.specs.Prelude.{◌≡◌, []};
ghost use Rattle.rules.specs.Walk.{walk};
ghost use Rattle.rules.specs.Answers.{refused};
ghost use Rattle.rules.specs.Calls.{find_at, insert_stored};
ghost use Rattle.steps.specs.Steps.{Ends};
ghost use Rattle.cells.specs.Layout.{Shaped, null, view, value_in, counts_of};
ghost use Rattle.cells.specs.Workers.{stop_of, put_said, walk_failed, InsertedBy};
ghost use Rattle.rules.specs.Entries.{is_found};
ghost use Rattle.entries.specs.Answers.{entry_in};
ghost use Rattle.entries.specs.Workers.{look_failed};
ghost use Rattle.entryinsert.specs.Answers.{entry_put_said, entry_insert_failed, insert_handed, handed_by};
ghost use Rattle.entryinsert.specs.Workers.{put_in};

use cells::insert::{FullAt, InsertSaid, Inserted, WalkError, insert_home, insert_walked};
use cells::slices::{hash_at, value_at};
use cells::walk::{Stop, View, Walked};
use cells::{Cell, NullError, Table, cell_of};
use entries::looking::LookError;
use entries::record::{CellAt, Entry, Place};

// What a call that inserts says, where it is not refused. Found: the value that or_insert kept. Replaced: by insert_entry.
#[derive(Clone, Copy)]
pub enum EntryInsertSaid {
    New,
    Replaced(u64),
    Revived,
    Found(u64),
}

impl From<InsertSaid> for EntryInsertSaid {
    ghost from_gives = { λ said r. entry_put_said r ≡ put_said said };

    fn from(said: InsertSaid) -> EntryInsertSaid {
        match said {
            InsertSaid::New => EntryInsertSaid::New,
            InsertSaid::Replaced(old) => EntryInsertSaid::Replaced(old),
            InsertSaid::Revived => EntryInsertSaid::Revived,
        }
    }
}

// How a call that inserts is refused.
#[derive(Clone, Copy, Debug, PartialEq, Eq)]
pub enum EntryInsertError {
    // 1
    Shape,
    // 2
    ZeroHash,
    // 3
    Null,
    // 4
    Full(FullAt),
    // 5
    Broken,
    // 7
    Stale,
}

impl From<LookError> for EntryInsertError {
    ghost from_gives = { λ error r. entry_insert_failed r ≡ look_failed error };

    fn from(error: LookError) -> EntryInsertError {
        match error {
            LookError::ZeroHash => EntryInsertError::ZeroHash,
            LookError::Stale => EntryInsertError::Stale,
        }
    }
}

impl From<NullError> for EntryInsertError {
    ghost from_gives = { λ _ r. entry_insert_failed r ≡ refused 3 [] };

    fn from(_null: NullError) -> EntryInsertError {
        EntryInsertError::Null
    }
}

impl From<WalkError> for EntryInsertError {
    ghost from_gives = { λ error r. entry_insert_failed r ≡ walk_failed error };

    fn from(error: WalkError) -> EntryInsertError {
        match error {
            WalkError::Full(at) => EntryInsertError::Full(at),
            WalkError::Broken => EntryInsertError::Broken,
        }
    }
}

// Whether a walk that stopped so finds a value.
#[tactic(auto, using(cells::proofs::Shapes::cell_lt))]
fn is_found(table: &View<'_>, stop: Stop) -> bool
    ensures { result ≡ is_found (find_at table.now.size null (value_in table.now.words.now) (stop_of stop)) }
{
    match stop {
        Stop::Met(at) => value_at(table.words, cell_of(at, table.size)) != Table::NULL,
        Stop::Tail(_) | Stop::Broken => false,
    }
}

// The insert, by a walk that was made already: an empty home is used at once, wherever the walk stopped.
#[tactic(auto, using(cells::proofs::Shapes::in_words, steps::proofs::Sizes::size_greatest))]
fn insert_after(
    words: &mut [u64],
    deltas: &mut [u8],
    size: usize,
    live: usize,
    cell: Cell,
    walked: Walked,
) -> Inserted
    requires { Shaped size words.old deltas.old × Ends (stop_of walked.stop) walked.looked (walk size (view words.old deltas.old) cell.hash cell.key) }
    ensures { InsertedBy result (insert_stored size null (view words.old deltas.old) (value_in words.old) (counts_of live) cell.hash cell.key cell.value) words.old deltas.old words.new deltas.new }
{
    let home = cell_of(cell.hash, size);
    if hash_at(words, home) == 0 {
        return insert_home(words, size, live, home, cell);
    }
    insert_walked(words, deltas, size, live, cell, walked)
}

// Looks again: a key that has a value now is Stale. Else an insert, by the same walk, and the entry is Occupied, at the cell that
// was changed.
pub fn put(
    words: &mut [u64],
    deltas: &mut [u8],
    size: usize,
    table: &mut Table,
    entry: &mut Entry,
    value: u64,
) -> Result<EntryInsertSaid, EntryInsertError>
    requires { Shaped size words.old deltas.old }
    ensures { insert_handed (record { said = result; entry = entry.new; table = table.new }) words.new deltas.new ≡ handed_by (put_in size null (view words.old deltas.old) (value_in words.old) (counts_of table.old.live) entry.old.hash entry.old.key value) (entry_in entry.old) table.old words.old deltas.old }
{
    let view = View {
        words,
        deltas,
        size,
    };
    let walked = view.walk_to(entry.hash, entry.key);
    if is_found(&view, walked.stop) {
        return Err(EntryInsertError::Stale);
    }
    let cell = Cell {
        hash: entry.hash,
        key: entry.key,
        value,
    };
    let done = insert_after(words, deltas, size, table.live, cell, walked);
    table.live = done.live;
    let said = done.said.answer()?;
    entry.place = Place::Occupied(CellAt { index: done.at });
    Ok(said.into())
}
