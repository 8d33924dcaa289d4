// Making an entry, and its key.
ghost use Rattle.std.specs.Prelude.{◌≡◌};
ghost use Rattle.rules.specs.Entries.{make_in, entry_of};
ghost use Rattle.cells.specs.Layout.{null, view, value_in, lent};
ghost use Rattle.hashentry.specs.Answers.{making};

use cells::slices::value_at;
use cells::walk::{Stop, View};
use cells::{Table, cell_of, size_of};
use entries::record::{CellAt, Entry, Place};
use hashers::hash_of;
use hashmap::LookupError;

// Behind the checks of entry.
#[tactic(auto, using(cells::proofs::Shapes::in_words))]
fn entry_in(table: &View<'_>, hash: u64, key: u64) -> Result<Entry, LookupError>
    ensures { making result ≡ make_in table.now.size null (view table.now.words.now table.now.deltas.now) (value_in table.now.words.now) hash key }
{
    let place = match table.walk_to(hash, key).stop {
        Stop::Met(at) => {
            let index = cell_of(at, table.size);
            if value_at(table.words, index) == Table::NULL {
                Place::Vacant
            } else {
                Place::Occupied(CellAt { index })
            }
        }
        Stop::Tail(_) => Place::Vacant,
        Stop::Broken => return Err(LookupError::Broken),
    };
    Ok(Entry { key, hash, place })
}

// Makes an entry from a key: Occupied, with its cell, where a find gives a value, else Vacant. Refusals: 1, 2, then 5 from the walk.
pub fn entry(words: &[u64], deltas: &[u8], table: Table, key: u64) -> Result<Entry, LookupError>
    ensures { making result ≡ entry_of (lent words.now deltas.now table) key }
{
    let size = size_of(words, deltas, table.live).ok_or(LookupError::Shape)?;
    let hash = hash_of(table.hasher, key);
    if hash == 0 {
        return Err(LookupError::ZeroHash);
    }
    let view = View {
        words,
        deltas,
        size,
    };
    entry_in(&view, hash, key)
}

// The key of an entry, of either case.
pub fn key(entry: Entry) -> u64
    ensures { result ≡ entry.key }
{
    entry.key
}
