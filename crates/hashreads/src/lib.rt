// What else is asked of a table: counts, and lookups that ask less than find or hand back more. Every call is defined for any slices
// and any record.
#![tactic(auto)]

ghost use Rattle.std.specs.Prelude.{◌≡◌, eqb};
ghost use Rattle.rules.specs.Calls.{find as find·rule};
ghost use Rattle.cells.specs.Layout.{lent};
ghost use Rattle.hashreads.specs.Answers.{contains_said, contains, key_value_said, key_value, capacity_said, capacity_rule};

pub use cells::ShapeError;
use cells::{Table, is_shaped};
pub use hashmap::LookupError;
use hashmap::find;

// How many live cells the record counts.
pub fn len(table: Table) -> usize
    ensures { result ≡ table.live }
{
    let live = table.live;
    live
}

pub fn is_empty(table: Table) -> bool
    ensures { result ≡ eqb table.live 0 }
{
    table.live == 0
}

// How many cells the table has. Refusal: 1, by the slices alone.
pub fn capacity(words: &[u64], deltas: &[u8]) -> Result<usize, ShapeError>
    ensures { capacity_said result ≡ capacity_rule words.now deltas.now }
{
    if is_shaped(words, deltas) {
        return Ok(deltas.len() / 2);
    }
    Err(ShapeError)
}

// Whether a find gives a value. Refusals: 1, 2, then 5 from the walk.
pub fn contains_key(
    words: &[u64],
    deltas: &[u8],
    table: Table,
    key: u64,
) -> Result<bool, LookupError>
    ensures { contains_said result ≡ contains (find·rule (lent words.now deltas.now table) key).said }
{
    let said = find(words, deltas, table, key).said?;
    Ok(said.is_some())
}

#[derive(Clone, Copy)]
pub struct KeyValue {
    pub key: u64,
    pub value: u64,
}

// The key with its value; none for a removed key too. Refusals: 1, 2, then 5 from the walk.
pub fn get_key_value(
    words: &[u64],
    deltas: &[u8],
    table: Table,
    key: u64,
) -> Result<Option<KeyValue>, LookupError>
    ensures { key_value_said result ≡ key_value key (find·rule (lent words.now deltas.now table) key).said }
{
    let found = find(words, deltas, table, key).said?;
    Ok(found.map(|value| KeyValue { key, value }))
}
