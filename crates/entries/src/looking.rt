// Internal: the checks of an entry's use.
ghost use Rattle.std.specs.Prelude.{true, ◌≡◌, ◌*◌, ◌≤◌, length};
ghost use Rattle.hashers.specs.Keys.{hash_of};
ghost use Rattle.rules.specs.Entries.{below};
ghost use Rattle.entries.specs.Answers.{place_of, entry_in};
ghost use Rattle.entries.specs.Workers.{use_size, Looks};

use crate::record::{Entry, Place};
use cells::slices::{holds_at, value_at};
use cells::{Table, size_of};
use hashers::{Hasher, hash_of};

// Check 1: how many cells the table has, or none where the shape fails or an Occupied entry's cell lies outside.
pub fn size_at(words: &[u64], deltas: &[u8], live: usize, place: Place) -> Option<usize>
    ensures { result ≡ use_size words.now deltas.now live (place_of place) }
{
    let size = size_of(words, deltas, live)?;
    match place {
        Place::Occupied(cell) => (cell.index < size).then_some(size),
        Place::Vacant => Some(size),
    }
}

// A cell with the value that it holds.
#[derive(Clone, Copy)]
pub struct CellValue {
    pub index: usize,
    pub value: u64,
}

// Why an entry cannot be used as an Occupied one.
#[derive(Clone, Copy, Debug, PartialEq, Eq)]
pub enum LookError {
    // 2
    ZeroHash,
    // 7
    Stale,
}

// Checks 2 and 7 of an action of Occupied entries, behind check 1. By the words alone: their caller may write them next.
pub fn look(
    words: &[u64],
    size: usize,
    hasher: Hasher,
    entry: Entry,
) -> Result<CellValue, LookError>
    requires { (3 * size ≤ length words.now) × (below size (place_of entry.place) ≡ true) }
    ensures { Looks (hash_of hasher) words.now (entry_in entry) result }
{
    let hash = hash_of(hasher, entry.key);
    if hash == 0 {
        return Err(LookError::ZeroHash);
    }
    let Place::Occupied(cell) = entry.place else {
        return Err(LookError::Stale);
    };
    if entry.hash != hash {
        return Err(LookError::Stale);
    }
    if !holds_at(words, cell.index, hash, entry.key) {
        return Err(LookError::Stale);
    }
    let value = value_at(words, cell.index);
    if value == Table::NULL {
        return Err(LookError::Stale);
    }
    Ok(CellValue {
        index: cell.index,
        value,
    })
}
