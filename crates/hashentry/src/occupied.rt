// The calls for Occupied entries. Late use is Stale, and so is a Vacant entry.
ghost use Rattle.std.specs.Prelude.{◌≡◌, []};
ghost use Rattle.rules.specs.Answers.{refused};
ghost use Rattle.rules.specs.Entries.{get_by, replace_by, remove_by};
ghost use Rattle.cells.specs.Layout.{lent, left_by};
ghost use Rattle.entries.specs.Answers.{entry_in};
ghost use Rattle.entries.specs.Workers.{look_failed};
ghost use Rattle.hashentry.specs.Answers.{get_failed, get_said, replace_failed, replace_left, entry_remove_failed, remove_left, remove_entry_left, with_key};

use cells::slices::store_value;
use cells::{NullError, Table, offer};
use entries::looking::{LookError, look, size_at};
use entries::record::Entry;

// How a get is refused.
#[derive(Clone, Copy, Debug, PartialEq, Eq)]
pub enum GetError {
    // 1
    Shape,
    // 2
    ZeroHash,
    // 7
    Stale,
}

impl From<LookError> for GetError {
    ghost from_gives = { λ error r. get_failed r ≡ look_failed error };

    fn from(error: LookError) -> GetError {
        match error {
            LookError::ZeroHash => GetError::ZeroHash,
            LookError::Stale => GetError::Stale,
        }
    }
}

// The value of an Occupied entry. Refusals: 1, 2, 7.
pub fn get(words: &[u64], deltas: &[u8], table: Table, entry: Entry) -> Result<u64, GetError>
    ensures { get_said result ≡ (get_by (lent words.now deltas.now table) (entry_in entry)).said }
{
    let size = size_at(words, deltas, table.live, entry.place).ok_or(GetError::Shape)?;
    let found = look(words, size, table.hasher, entry)?;
    Ok(found.value)
}

// How a replace is refused.
#[derive(Clone, Copy, Debug, PartialEq, Eq)]
pub enum ReplaceError {
    // 1
    Shape,
    // 2
    ZeroHash,
    // 3
    Null,
    // 7
    Stale,
}

impl From<LookError> for ReplaceError {
    ghost from_gives = { λ error r. replace_failed r ≡ look_failed error };

    fn from(error: LookError) -> ReplaceError {
        match error {
            LookError::ZeroHash => ReplaceError::ZeroHash,
            LookError::Stale => ReplaceError::Stale,
        }
    }
}

impl From<NullError> for ReplaceError {
    ghost from_gives = { λ _ r. replace_failed r ≡ refused 3 [] };

    fn from(_null: NullError) -> ReplaceError {
        ReplaceError::Null
    }
}

// Replaces the value of an Occupied entry, at its cell, and says the old one. The record stays as it is. Refusals: 1, 3, 2, 7.
pub fn replace(
    words: &mut [u64],
    deltas: &[u8],
    table: Table,
    entry: Entry,
    value: u64,
) -> Result<u64, ReplaceError>
    ensures { replace_left table result words.new deltas.now ≡ left_by (replace_by (lent words.old deltas.now table) (entry_in entry) value) table words.old deltas.now }
{
    let size = size_at(words, deltas, table.live, entry.place).ok_or(ReplaceError::Shape)?;
    offer(value)?;
    let cell = look(words, size, table.hasher, entry)?;
    store_value(words, cell.index, value);
    Ok(cell.value)
}

// How a remove by an entry is refused.
#[derive(Clone, Copy, Debug, PartialEq, Eq)]
pub enum EntryRemoveError {
    // 1
    Shape,
    // 2
    ZeroHash,
    // 5
    Broken,
    // 7
    Stale,
}

impl From<LookError> for EntryRemoveError {
    ghost from_gives = { λ error r. entry_remove_failed r ≡ look_failed error };

    fn from(error: LookError) -> EntryRemoveError {
        match error {
            LookError::ZeroHash => EntryRemoveError::ZeroHash,
            LookError::Stale => EntryRemoveError::Stale,
        }
    }
}

// The value removed, with the record afterwards.
#[derive(Clone, Copy)]
pub struct EntryRemoveAnswer {
    pub said: Result<u64, EntryRemoveError>,
    pub table: Table,
}

// As remove, and counts the record down in place.
fn remove_in(
    words: &mut [u64],
    deltas: &[u8],
    table: &mut Table,
    entry: Entry,
) -> Result<u64, EntryRemoveError>
    ensures { remove_left (record { said = result; table = table.new }) words.new deltas.now ≡ left_by (remove_by (lent words.old deltas.now table.old) (entry_in entry)) table.old words.old deltas.now }
{
    let size = size_at(words, deltas, table.live, entry.place).ok_or(EntryRemoveError::Shape)?;
    let cell = look(words, size, table.hasher, entry)?;
    if table.live == 0 {
        return Err(EntryRemoveError::Broken);
    }
    store_value(words, cell.index, Table::NULL);
    table.live -= 1;
    Ok(cell.value)
}

// Removes an Occupied entry's key, at its cell: the value becomes null, and nothing else changes. Refusals: 1, 2, 7, then 5 with live 0.
pub fn remove(words: &mut [u64], deltas: &[u8], table: Table, entry: Entry) -> EntryRemoveAnswer
    ensures { remove_left result words.new deltas.now ≡ left_by (remove_by (lent words.old deltas.now table) (entry_in entry)) table words.old deltas.now }
{
    let mut table = table;
    let said = remove_in(words, deltas, &mut table, entry);
    EntryRemoveAnswer { said, table }
}

// A remove's answer with the entry's key.
#[derive(Clone, Copy)]
pub struct RemoveEntryAnswer {
    pub said: Result<u64, EntryRemoveError>,
    pub key: u64,
    pub table: Table,
}

// As remove, and hands the key back too.
pub fn remove_entry(
    words: &mut [u64],
    deltas: &[u8],
    table: Table,
    entry: Entry,
) -> RemoveEntryAnswer
    ensures { remove_entry_left result words.new deltas.now ≡ with_key entry.key (left_by (remove_by (lent words.old deltas.now table) (entry_in entry)) table words.old deltas.now) }
{
    let done = remove(words, deltas, table, entry);
    RemoveEntryAnswer {
        said: done.said,
        key: entry.key,
        table: done.table,
    }
}
