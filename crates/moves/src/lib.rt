// The plain move: the live cells of a table go over into one lent table of any allowed size.
// The slices come one by one, as in hashmap.
#![tactic(auto)]

ghost use Rattle.std.specs.Prelude.{true, List, ◌≡◌, ℕ, ◌*◌, ◌≤◌, length, Err};
ghost use Rattle.hashers.specs.declared.Hasher.{Hasher};
ghost use Rattle.rules.specs.Sizes.{is_size};
ghost use Rattle.rules.specs.Moves.{move_all, move_end};
ghost use Rattle.cells.specs.Layout.{null, counts_of};
ghost use Rattle.moving.specs.Slices.{held_in, clear_held};
ghost use Rattle.moving.specs.Ends.{end_of, into_by};
ghost use Rattle.moves.specs.Answers.{move_failed, end_said, move_left, move_rule};

pub use cells::Table;
pub use cells::insert::FullAt;
use cells::insert::WalkError;
use cells::{is_shaped, size_of};
use moving::{clear_both, move_into};

// How a move is refused.
#[derive(Clone, Copy, Debug, PartialEq, Eq)]
pub enum MoveError {
    // 1
    Shape,
    // 4
    Full(FullAt),
    // 5
    Broken,
}

impl From<WalkError> for MoveError {
    ghost from_gives = { λ walked error. (hasher : Hasher) → move_failed error ≡ end_said hasher (end_of (Err walked)) };

    fn from(error: WalkError) -> MoveError {
        match error {
            WalkError::Full(at) => MoveError::Full(at),
            WalkError::Broken => MoveError::Broken,
        }
    }
}

// Behind check 1: the destination, of so many cells, is cleared and moved into.
fn move_past(
    from: &[u64],
    size: usize,
    live: usize,
    words: &mut [u64],
    deltas: &mut [u8],
    cells: usize,
) -> Result<usize, WalkError>
    requires { (3 * size ≤ length from.now) × (is_size cells ≡ true) × (length words.old ≡ 3 * cells) × (length deltas.old ≡ 2 * cells) }
    ensures { (ds : List ℕ) → record { ended = end_of result; words = words.new; deltas = deltas.new } ≡ into_by cells (move_end (move_all null size (held_in from.now ds) (counts_of live) cells (clear_held cells)) (move_all null size (held_in from.now ds) (counts_of live) cells (clear_held cells)).ended) words.old deltas.old }
{
    clear_both(words, deltas, cells);
    move_into(from, size, live, words, deltas, cells, cells)
}

// Clears the destination and moves the live cells of the source into it, in index order by stored hash. The new record has
// the source's hasher and live. Refusals: 1 for either table, which leaves all; then 4 or 5, which clear the destination.
pub fn move_table(
    from_words: &[u64],
    from_deltas: &[u8],
    table: Table,
    words: &mut [u64],
    deltas: &mut [u8],
) -> Result<Table, MoveError>
    ensures { move_left result words.new deltas.new ≡ move_rule from_words.now from_deltas.now table words.old deltas.old }
{
    let hasher = table.hasher;
    let size = size_of(from_words, from_deltas, table.live).ok_or(MoveError::Shape)?;
    if !is_shaped(words, deltas) {
        return Err(MoveError::Shape);
    }
    let cells = deltas.len() / 2;
    let live = move_past(from_words, size, table.live, words, deltas, cells)?;
    Ok(Table { hasher, live })
}
