// Internal: the sample that follows Full, the first size to try, and that size as the Rust computes it. A sample's count is a number with
// its bound: it is made in one place, and goes straight to the size.
#![tactic(auto)]

ghost use Rattle.std.specs.Prelude.{◌≡◌, ℕ, ◌+◌, ◌*◌, ◌^◌, ◌<◌, ◌≤◌, max, true, List, length};
ghost use Rattle.std.specs.Float.Ieee.{to_unsigned};
ghost use Rattle.hashers.specs.declared.Hasher.{Hasher};
ghost use Rattle.rules.specs.Sizes.{is_size, least_log};
ghost use Rattle.rules.specs.Growth.{sampled, first_size, sample as sample·rule};
ghost use Rattle.cells.specs.Layout.{params_of, view, value_in};
ghost use Rattle.sizing.specs.Float.{estimated};

use cells::slices::is_live;
use cells::{Table, cell_of};
use std::num::{truncating_f32_to_u64, wrapping_add_u64, wrapping_sub_u64};
use util::round_to_pow2;

// How many positions a sample looks at.
const SAMPLED: u64 = 64;

// The live cells among the 64 positions from the carried one minus 64 on. A cell that is seen again counts again.
// The words may go on past the table's.
pub fn sample(words: &[u64], size: usize, carried: u64) -> usize
    requires { (is_size size ≡ true) × (3 * size ≤ length words.now) }
    ensures { (h : Hasher) (ds : List ℕ) → result ≡ sample·rule (params_of size h) (view words.now ds) (value_in words.now) carried }
{
    let start = wrapping_sub_u64(carried, SAMPLED);
    let mut n = 0;
    for i in 0..SAMPLED {
        let at = wrapping_add_u64(start, i);
        if is_live(words, cell_of(at, size)) {
            n += 1;
        }
    }
    n
}

fn at_least(size: usize) -> usize
    ensures { result ≡ max (2 ^ least_log) size }
{
    size.max(Table::LEAST_SIZE)
}

// The first size to try after Full, where a sample counted n: size * n / 32 rounded up to a power of two, at least the least size.
// Size and count go apart: a type for the two would be made for one call.
#[tactic(auto, using(crate::proofs::Sizes::product_fits), unfolding(rules::specs::Growth::first_size))]
pub fn first_size(size: usize, n: usize) -> usize
    requires { (is_size size ≡ true) × (n ≤ sampled) }
    ensures { result ≡ first_size size n }
{
    at_least(round_to_pow2((size * n / 32) as u64) as usize)
}

// The Rust's estimate of the cells to have, in f32.
fn estimate_f32(size: usize, n: usize) -> u64
    requires { (is_size size ≡ true) × (n ≤ sampled) }
    ensures { result ≡ to_unsigned 64 (estimated size n) }
{
    let ratio = n as f32 / 64.0;
    let in_use = size as f32 * ratio;
    truncating_f32_to_u64(in_use * 2.0)
}

// The first size, computed as the Rust computes it.
#[tactic(auto, using(crate::proofs::Twin::estimate_is), unfolding(rules::specs::Growth::first_size))]
pub fn first_size_f32(size: usize, n: usize) -> usize
    requires { (is_size size ≡ true) × (n ≤ sampled) }
    ensures { result ≡ first_size size n }
{
    at_least(round_to_pow2(estimate_f32(size, n)) as usize)
}
