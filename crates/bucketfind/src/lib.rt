// find over a lent slice of buckets, the Rust's own shape. Its answer is that of hashmap::find on two flat slices that hold the same
// buckets. Three functions touch the slice: bucket_at, find_in and find. All others are on values.
#![tactic(auto)]

ghost use Rattle.std.specs.Prelude.{◌≡◌, ◌*◌, ◌/◌, ◌%◌, true, ◌&&◌, nat_le};
ghost use Rattle.rules.specs.Sizes.{is_size};
ghost use Rattle.rules.specs.Calls.{find_in, find as find·rule};
ghost use Rattle.cells.specs.Layout.{null};
ghost use Rattle.hashmap.specs.Answers.{find_answer};
ghost use Rattle.buckets.specs.Buckets.{cell_in};
ghost use Rattle.bucketfind.specs.Slice.{size_of, cells_in, values_in, buckets_lent, bucket_of, holds_in, met_with};

use buckets::Bucket;
use cells::{Table, cell_of, is_size};
use hashers::hash_of;
use hashmap::{FindAnswer, LookupError};
use std::num::wrapping_add_u64;

// Which of the four cells of its bucket a position is.
fn cell_index(at: u64) -> usize
    ensures { result ≡ at % 4 }
{
    (at % 4) as usize
}

// Which bucket of so many a position is in.
#[tactic(auto, using(crate::proofs::Bounds::most))]
fn bucket_index(at: u64, count: usize) -> usize
    requires { is_size (4 * count) ≡ true }
    ensures { result ≡ at % (4 * count) / 4 }
{
    cell_of(at, 4 * count) / 4
}

// Whether the cell of a position in its bucket holds this hash and key.
fn holds(bucket: Bucket, at: u64, hash: u64, key: u64) -> bool
    ensures { result ≡ holds_in bucket (at % 4) hash key }
{
    let cell = bucket.cells[cell_index(at)];
    cell.hash == hash && cell.key == key
}

// The key was met at this position, after so many looks: the value there, or none where it is null.
fn met(bucket: Bucket, at: u64, looked: usize) -> FindAnswer
    ensures { find_answer result ≡ met_with (cell_in bucket (at % 4)).value looked }
{
    let value = bucket.cells[cell_index(at)].value;
    FindAnswer {
        said: Ok((value != Table::NULL).then_some(value)),
        looked,
    }
}

// Check 1: so many buckets make a table of an allowed size, and live is at most that.
#[tactic(auto, using(crate::proofs::Bounds::too_many))]
fn passes(count: usize, table: Table) -> bool
    ensures { result ≡ (is_size (4 * count) && nat_le table.live (4 * count)) }
{
    count <= Table::GREATEST_SIZE / 4 && is_size(4 * count) && table.live <= 4 * count
}

// The bucket of a position, out of the slice by value.
#[tactic(auto, using(crate::proofs::Bounds::most, crate::proofs::Bounds::bucket_there))]
fn bucket_at(buckets: &[Bucket], at: u64) -> Bucket
    requires { is_size (size_of buckets.now) ≡ true }
    ensures { result ≡ bucket_of buckets.now at }
{
    buckets[bucket_index(at, buckets.len())]
}

// Behind the checks of find: the home, then its first delta, then second deltas. The walk of cells again, over buckets: document 01 asks
// for one lookup in the Rust's own shape.
fn find_in(buckets: &[Bucket], hash: u64, key: u64) -> FindAnswer
    requires { is_size (size_of buckets.now) ≡ true }
    ensures { find_answer result ≡ find_in (size_of buckets.now) null (cells_in buckets.now) (values_in buckets.now) hash key }
{
    let size = 4 * buckets.len();
    let home = bucket_at(buckets, hash);
    if holds(home, hash, hash, key) {
        return met(home, hash, 1);
    }
    let mut at = hash;
    let mut looked = 1;
    let mut delta = u64::from(home.deltas[cell_index(hash)]);
    // By links, as the rule says it: a delta of 0 ends them, and looked is a part of the answer.
    while delta != 0 {
        if looked == size {
            return FindAnswer {
                said: Err(LookupError::Broken),
                looked,
            };
        }
        at = wrapping_add_u64(at, delta);
        looked += 1;
        let bucket = bucket_at(buckets, at);
        if holds(bucket, at, hash, key) {
            return met(bucket, at, looked);
        }
        delta = u64::from(bucket.deltas[cell_index(at) + 4]);
    }
    FindAnswer {
        said: Ok(None),
        looked,
    }
}

// Looks a key up. Refusals: 1, 2, then 5 from the walk.
pub fn find(buckets: &[Bucket], table: Table, key: u64) -> FindAnswer
    ensures { find_answer result ≡ find·rule (buckets_lent buckets.now table) key }
{
    if !passes(buckets.len(), table) {
        return FindAnswer {
            said: Err(LookupError::Shape),
            looked: 0,
        };
    }
    let hash = hash_of(table.hasher, key);
    if hash == 0 {
        return FindAnswer {
            said: Err(LookupError::ZeroHash),
            looked: 0,
        };
    }
    find_in(buckets, hash, key)
}
