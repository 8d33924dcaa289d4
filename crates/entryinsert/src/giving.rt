// Internal: the calls that insert, in one.
ghost use Rattle.std.specs.Prelude.{◌≡◌};
ghost use Rattle.cells.specs.Layout.{lent};
ghost use Rattle.rules.specs.Entries.{on_case, inserting, use_entry};
ghost use Rattle.entries.specs.Answers.{place_of, entry_in};
ghost use Rattle.entryinsert.specs.Answers.{insert_handed, handed_by};
ghost use Rattle.entryinsert.specs.Workers.{doing};

use crate::vacant::{EntryInsertError, EntryInsertSaid, put};
use cells::slices::store_value;
use cells::{Table, offer};
use entries::looking::{look, size_at};
use entries::record::{Entry, Place};
use hashers::hash_of;

// What a call that inserts answers, with the entry and the record afterwards.
#[derive(Clone, Copy)]
pub struct EntryInsertAnswer {
    pub said: Result<EntryInsertSaid, EntryInsertError>,
    // Occupied where a value stands under the key; as it was where the call is refused.
    pub entry: Entry,
    pub table: Table,
}

// What is done with an Occupied entry. An enum and no closure: each of three closures would need the rule of its use in a contract
// of its own, where one match has them all.
#[derive(Clone, Copy)]
pub enum Doing {
    Refuse,
    Keep,
    Replace,
}

// Checks 1 and 3, then by the case of the entry. The entry and the record change where a value is inserted.
fn give_in(
    words: &mut [u64],
    deltas: &mut [u8],
    table: &mut Table,
    entry: &mut Entry,
    value: u64,
    held: Doing,
) -> Result<EntryInsertSaid, EntryInsertError>
    ensures { insert_handed (record { said = result; entry = entry.new; table = table.new }) words.new deltas.new ≡ handed_by (use_entry (lent words.old deltas.old table.old) (entry_in entry.old) (on_case (place_of entry.old.place) (doing held value) (inserting value))) (entry_in entry.old) table.old words.old deltas.old }
{
    let size = size_at(words, deltas, table.live, entry.place).ok_or(EntryInsertError::Shape)?;
    offer(value)?;
    match entry.place {
        Place::Occupied(_) => {
            let cell = look(words, size, table.hasher, *entry)?;
            match held {
                Doing::Refuse => Err(EntryInsertError::Stale),
                Doing::Keep => Ok(EntryInsertSaid::Found(cell.value)),
                Doing::Replace => {
                    store_value(words, cell.index, value);
                    Ok(EntryInsertSaid::Replaced(cell.value))
                }
            }
        }
        Place::Vacant => {
            let hash = hash_of(table.hasher, entry.key);
            if hash == 0 {
                return Err(EntryInsertError::ZeroHash);
            }
            if entry.hash != hash {
                return Err(EntryInsertError::Stale);
            }
            put(words, deltas, size, table, entry, value)
        }
    }
}

// As a call does: the entry and the record are lent by value, and handed back.
pub fn give(
    words: &mut [u64],
    deltas: &mut [u8],
    table: Table,
    entry: Entry,
    value: u64,
    held: Doing,
) -> EntryInsertAnswer
    ensures { insert_handed result words.new deltas.new ≡ handed_by (use_entry (lent words.old deltas.old table) (entry_in entry) (on_case (place_of entry.place) (doing held value) (inserting value))) (entry_in entry) table words.old deltas.old }
{
    let mut table = table;
    let mut entry = entry;
    let said = give_in(words, deltas, &mut table, &mut entry, value, held);
    EntryInsertAnswer { said, entry, table }
}
