// The calls of an entry that insert: a Vacant entry's, and those that serve either case. Every call is defined for any slices, any
// record and any entry.
#![tactic(auto)]

mod giving;
mod vacant;

ghost use Rattle.std.specs.Prelude.{◌≡◌};
ghost use Rattle.rules.specs.Entries.{insert_by, or_insert_by, insert_entry_by};
ghost use Rattle.cells.specs.Layout.{lent};
ghost use Rattle.entries.specs.Answers.{entry_in};
ghost use Rattle.entryinsert.specs.Answers.{insert_handed, handed_by};

use cells::Table;
use entries::record::Entry;
pub use giving::EntryInsertAnswer;
use giving::{Doing, give};
pub use vacant::{EntryInsertError, EntryInsertSaid};

// Three names for give, each with its rule: a user calls by what is to be done with an Occupied entry.

// Inserts a value under the key of a Vacant entry, at fixed size. Refusals: 1, 3, 2, 7, then 4 or 5 from the insert's walk.
pub fn insert(
    words: &mut [u64],
    deltas: &mut [u8],
    table: Table,
    entry: Entry,
    value: u64,
) -> EntryInsertAnswer
    ensures { insert_handed result words.new deltas.new ≡ handed_by (insert_by (lent words.old deltas.old table) (entry_in entry) value) (entry_in entry) table words.old deltas.old }
{
    give(words, deltas, table, entry, value, Doing::Refuse)
}

// Keeps the value of an Occupied entry, and says it; inserts the given one under a Vacant entry's key. Refusals: as insert.
pub fn or_insert(
    words: &mut [u64],
    deltas: &mut [u8],
    table: Table,
    entry: Entry,
    value: u64,
) -> EntryInsertAnswer
    ensures { insert_handed result words.new deltas.new ≡ handed_by (or_insert_by (lent words.old deltas.old table) (entry_in entry) value) (entry_in entry) table words.old deltas.old }
{
    give(words, deltas, table, entry, value, Doing::Keep)
}

// Sets the value of either case: replaces that of an Occupied entry, inserts under a Vacant entry's key. Refusals: as insert.
pub fn insert_entry(
    words: &mut [u64],
    deltas: &mut [u8],
    table: Table,
    entry: Entry,
    value: u64,
) -> EntryInsertAnswer
    ensures { insert_handed result words.new deltas.new ≡ handed_by (insert_entry_by (lent words.old deltas.old table) (entry_in entry) value) (entry_in entry) table words.old deltas.old }
{
    give(words, deltas, table, entry, value, Doing::Replace)
}
