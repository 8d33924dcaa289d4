// Internal: check 1 of a growing table. Nothing here is a public call. The lengths come one by one: they are what is checked.
ghost use Rattle.std.specs.Prelude.{◌&&◌, ◌≡◌, ◌/◌, ◌≤◌};
ghost use Rattle.cells.specs.Layout.{size_in};
ghost use Rattle.parts.specs.Halves.{half_of, of_half, are_pair, are_halves, size_fits, record_fits};

use crate::{Growing, Half};
use cells::is_size;

// Of what the lower half has and what the upper has, that of this half.
pub fn of_half<'a, T>(half: Half, lower: &'a [T], upper: &'a [T]) -> &'a [T]
    ensures { result.now ≡ of_half (half_of half) lower.now upper.now }
{
    match half {
        Half::Lower => lower,
        Half::Upper => upper,
    }
}

// Two lengths are those of so many cells, an allowed number of them, with `each` numbers to a cell.
#[tactic(auto, using(crate::proofs::Checks::product_most), unfolding(crate::specs::Halves::are_pair))]
pub fn are_pair(each: usize, cells: usize, lower: usize, upper: usize) -> bool
    requires { each ≤ 3 }
    ensures { result ≡ are_pair each cells lower upper }
{
    is_size(cells) && lower == each * cells && upper == each * cells
}

// Both halves hold C cells for an allowed C, which the lower deltas tell.
#[tactic(auto, unfolding(crate::specs::Halves::are_halves))]
pub fn are_halves(
    lower_words: &[u64],
    lower_deltas: &[u8],
    upper_words: &[u64],
    upper_deltas: &[u8],
) -> bool
    ensures { result ≡ are_halves lower_words.now lower_deltas.now upper_words.now upper_deltas.now }
{
    let cells = lower_deltas.len() / 2;
    are_pair(3, cells, lower_words.len(), upper_words.len())
        && are_pair(2, cells, lower_deltas.len(), upper_deltas.len())
}

// An allowed size, at most C.
#[tactic(auto, unfolding(crate::specs::Halves::size_fits))]
pub fn size_fits(cells: usize, size: usize) -> bool
    ensures { result ≡ size_fits cells size }
{
    is_size(size) && size <= cells
}

// The size fits, and live is at most the size.
#[tactic(auto, unfolding(crate::specs::Halves::record_fits))]
pub fn record_fits(cells: usize, growing: Growing) -> bool
    ensures { result ≡ record_fits cells growing }
{
    size_fits(cells, growing.size) && growing.table.live <= growing.size
}

// Check 1 of a call that is lent both halves with their record.
pub fn passes(
    lower_words: &[u64],
    lower_deltas: &[u8],
    upper_words: &[u64],
    upper_deltas: &[u8],
    growing: Growing,
) -> bool
    ensures { result ≡ (are_halves lower_words.now lower_deltas.now upper_words.now upper_deltas.now && record_fits (size_in lower_deltas.now) growing) }
{
    are_halves(lower_words, lower_deltas, upper_words, upper_deltas)
        && record_fits(lower_deltas.len() / 2, growing)
}

// Check 1 by one kind of slice alone, with `each` numbers to a cell.
pub fn pair_passes(each: usize, lower: usize, upper: usize, growing: Growing) -> bool
    requires { (1 ≤ each) × (each ≤ 3) }
    ensures { result ≡ (are_pair each (lower / each) lower upper && record_fits (lower / each) growing) }
{
    let cells = lower / each;
    are_pair(each, cells, lower, upper) && record_fits(cells, growing)
}
