// The parts: the front of the half in use, as slices. With the table record they are a table for every call that reads one.
// A part of length 0 is handed back under 1, and no Result: document 01 asks for just that.
// Refusal 1: lengths not those of C cells each for an allowed C, a size not allowed or above C,
// live above the size.
ghost use Rattle.std.specs.Prelude.{◌≡◌, ◌/◌, ◌≤◌, length};
ghost use Rattle.parts.specs.Halves.{part, used_words, used_deltas};

use crate::Growing;
use crate::internal::{of_half, pair_passes};

// The front of the half in use, with `each` numbers to a cell. It sees one kind of slice alone.
fn part<'a, T>(each: usize, lower: &'a [T], upper: &'a [T], growing: Growing) -> &'a [T]
    requires { (1 ≤ each) × (each ≤ 3) }
    ensures { result.now ≡ part each (length lower.now / each) lower.now upper.now growing }
{
    if !pair_passes(each, lower.len(), upper.len(), growing) {
        return &lower[..0];
    }
    let front = each * growing.size;
    &of_half(growing.half, lower, upper)[..front]
}

// The words of the half in use, exactly its first 3S. It sees no deltas.
pub fn used_words<'a>(lower: &'a [u64], upper: &'a [u64], growing: Growing) -> &'a [u64]
    ensures { result.now ≡ used_words lower.now upper.now growing }
{
    part(3, lower, upper, growing)
}

// Its first 2S deltas. It sees no words.
pub fn used_deltas<'a>(lower: &'a [u8], upper: &'a [u8], growing: Growing) -> &'a [u8]
    ensures { result.now ≡ used_deltas lower.now upper.now growing }
{
    part(2, lower, upper, growing)
}
