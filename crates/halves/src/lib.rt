// The two halves: a growing table lies in the front of one of two lent halves of C cells each, and its record says where.
// Every call is defined for any slices and any record, so the four slices come one by one, as the calls of hashmap take theirs.
#![tactic(auto)]

ghost use Rattle.std.specs.Prelude.{◌≡◌, ◌*◌, take};
ghost use Rattle.rules.specs.Calls.{find as find·rule, remove as remove·rule};
ghost use Rattle.rules.specs.Growing.{in_use};
ghost use Rattle.cells.specs.Layout.{Shaped, lent, left_by};
ghost use Rattle.hashmap.specs.Answers.{find_answer, remove_left};
ghost use Rattle.parts.specs.Halves.{lent_halves};
ghost use Rattle.halves.specs.Answers.{clear_halves_left, clear_halves_rule, remove_halves_left, remove_rule, removed_from};

pub use cells::ShapeError;
use cells::Table;
use hashers::Hasher;
pub use hashmap::{FindAnswer, LookupError};
use moving::clear_both;
use parts::internal::{are_halves, of_half, passes, size_fits};
use parts::with_table;
pub use parts::{Growing, Half};

// Clears both halves whole and makes a fresh growing table of this size, in the lower half. Refusal: 1.
pub fn clear_halves(
    lower_words: &mut [u64],
    lower_deltas: &mut [u8],
    upper_words: &mut [u64],
    upper_deltas: &mut [u8],
    size: usize,
    hasher: Hasher,
) -> Result<Growing, ShapeError>
    ensures { clear_halves_left result lower_words.new lower_deltas.new upper_words.new upper_deltas.new ≡ clear_halves_rule lower_words.old lower_deltas.old upper_words.old upper_deltas.old size hasher }
{
    if !are_halves(lower_words, lower_deltas, upper_words, upper_deltas) {
        return Err(ShapeError);
    }
    let cells = lower_deltas.len() / 2;
    if !size_fits(cells, size) {
        return Err(ShapeError);
    }
    clear_both(lower_words, lower_deltas, cells);
    clear_both(upper_words, upper_deltas, cells);
    Ok(Growing {
        table: Table { hasher, live: 0 },
        size,
        half: Half::Lower,
    })
}

// Looks a key up in the table of so many cells in the front of two slices.
fn find_front(words: &[u64], deltas: &[u8], size: usize, table: Table, key: u64) -> FindAnswer
    requires { Shaped size words.now deltas.now }
    ensures { find_answer result ≡ find·rule (lent (take (3 * size) words.now) (take (2 * size) deltas.now) table) key }
{
    hashmap::find(&words[..3 * size], &deltas[..2 * size], table, key)
}

// Looks a key up in the table in use. Refusals: 1, 2, then 5 from the walk.
pub fn find(
    lower_words: &[u64],
    lower_deltas: &[u8],
    upper_words: &[u64],
    upper_deltas: &[u8],
    growing: Growing,
    key: u64,
) -> FindAnswer
    ensures { find_answer result ≡ find·rule (in_use (lent_halves lower_words.now lower_deltas.now upper_words.now upper_deltas.now growing)) key }
{
    if !passes(
        lower_words,
        lower_deltas,
        upper_words,
        upper_deltas,
        growing,
    ) {
        let said = Err(LookupError::Shape);
        return FindAnswer { said, looked: 0 };
    }
    let half = growing.half;
    let words = of_half(half, lower_words, upper_words);
    let deltas = of_half(half, lower_deltas, upper_deltas);
    find_front(words, deltas, growing.size, growing.table, key)
}

#[derive(Clone, Copy)]
pub struct GrowingRemoveAnswer {
    pub said: Result<Option<u64>, LookupError>,
    pub looked: usize,
    pub growing: Growing,
}

// Removes a key from the table of so many cells in the front of two slices.
fn remove_front(
    words: &mut [u64],
    deltas: &[u8],
    size: usize,
    table: Table,
    key: u64,
) -> hashmap::RemoveAnswer
    requires { Shaped size words.old deltas.now }
    ensures { remove_left result words.new deltas.now ≡ left_by (remove·rule (lent (take (3 * size) words.old) (take (2 * size) deltas.now) table) key) table words.old deltas.now }
{
    hashmap::remove(&mut words[..3 * size], &deltas[..2 * size], table, key)
}

// The answer of a remove from the table in use, with the growing record.
fn removed_from(done: hashmap::RemoveAnswer, growing: Growing) -> GrowingRemoveAnswer
    ensures { result ≡ removed_from done growing.size growing.half }
{
    GrowingRemoveAnswer {
        said: done.said,
        looked: done.looked,
        growing: with_table(growing, done.table),
    }
}

// Removes a key from the table in use; the other half stays. Refusals: 1, 2, then 5 from the walk.
pub fn remove(
    lower_words: &mut [u64],
    lower_deltas: &[u8],
    upper_words: &mut [u64],
    upper_deltas: &[u8],
    growing: Growing,
    key: u64,
) -> GrowingRemoveAnswer
    ensures { remove_halves_left result lower_words.new lower_deltas.now upper_words.new upper_deltas.now ≡ remove_rule lower_words.old lower_deltas.now upper_words.old upper_deltas.now growing key }
{
    if !passes(
        lower_words,
        lower_deltas,
        upper_words,
        upper_deltas,
        growing,
    ) {
        return GrowingRemoveAnswer {
            said: Err(LookupError::Shape),
            looked: 0,
            growing,
        };
    }
    let table = growing.table;
    let size = growing.size;
    // An arm for each half: a choice between `&mut` slices gets no proof.
    match growing.half {
        Half::Lower => {
            let done = remove_front(lower_words, lower_deltas, size, table, key);
            removed_from(done, growing)
        }
        Half::Upper => {
            let done = remove_front(upper_words, upper_deltas, size, table, key);
            removed_from(done, growing)
        }
    }
}
