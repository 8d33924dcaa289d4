// One bucket of a table, eight deltas and four cells, as a value: taken out, read or changed in one cell, put back.
// These calls test the lengths of the slices and the index alone, which come one by one as in hashmap: they see no record of the table,
// and leave it.
#![tactic(auto)]

ghost use Rattle.std.specs.Prelude.{◌≡◌, ◌+◌, ◌*◌, ◌<◌, length};
ghost use Rattle.buckets.specs.Buckets.{cell_at, bucket_at, words_with, deltas_with, fits_bucket, empty_bucket, Inside, taken, taking, left, putting, changed, changing, cell_said, reading};

pub use cells::{Cell, ShapeError};
use cells::{Table, slices};

// Bucket b of a table is its cells from 4b on: the first deltas of the four, their second deltas, and the cells.
#[derive(Clone, Copy)]
pub struct Bucket {
    pub deltas: [u8; 8],
    pub cells: [Cell; 4],
}

// A change that was refused under 1, with the bucket as it was.
#[derive(Clone, Copy)]
pub struct Unchanged(pub Bucket);

impl Bucket {
    // A bucket of four empty cells, for where a caller needs one before it has taken any.
    pub const EMPTY: Bucket = Bucket {
        deltas: [0; 8],
        cells: [Table::EMPTY; 4],
    };

    // Cell j of the four. Refusal: 1, j is not below 4.
    #[tactic(auto, unfolding(crate::specs::Buckets::reading))]
    pub fn cell(self, j: usize) -> Result<Cell, ShapeError>
        ensures { cell_said result ≡ reading self j }
    {
        self.cells.get(j).copied().ok_or(ShapeError)
    }

    // The bucket with this cell as cell j. Refusal: 1, j is not below 4; with the bucket as it was.
    #[tactic(auto, unfolding(crate::specs::Buckets::changing))]
    pub fn with_cell(self, j: usize, cell: Cell) -> Result<Bucket, Unchanged>
        ensures { changed result ≡ changing self j cell }
    {
        if j < 4 {
            let mut bucket = self;
            bucket.cells[j] = cell;
            Ok(bucket)
        } else {
            Err(Unchanged(self))
        }
    }
}

// The bucket that a caller has who was refused one: an empty one.
impl Default for Bucket {
    ghost is_default = { λ bucket. bucket ≡ empty_bucket };

    fn default() -> Bucket {
        Bucket::EMPTY
    }
}

// The slices are those of a table of an allowed size, and it has a bucket b.
#[tactic(auto, unfolding(crate::specs::Buckets::fits_bucket))]
fn has_bucket(words: &[u64], deltas: &[u8], b: usize) -> bool
    ensures { result ≡ fits_bucket words.now deltas.now b }
{
    let size = deltas.len() / 2;
    cells::is_shaped(words, deltas) && b < size / 4
}

// Cell i of the table.
fn cell_at(words: &[u64], i: usize) -> Cell
    requires { 3 * i + 2 < length words.now }
    ensures { result ≡ cell_at words.now i }
{
    Cell {
        hash: slices::hash_at(words, i),
        key: slices::key_at(words, i),
        value: slices::value_at(words, i),
    }
}

fn read_bucket(words: &[u64], deltas: &[u8], b: usize) -> Bucket
    requires { Inside (length words.now) (length deltas.now) b }
    ensures { result ≡ bucket_at words.now deltas.now b }
{
    let mut eight = [0; 8];
    let at = 8 * b;
    eight.copy_from_slice(&deltas[at..at + 8]);
    let i = 4 * b;
    Bucket {
        deltas: eight,
        cells: std::array::from_fn(|j| cell_at(words, i + j)),
    }
}

// Bucket b, out of the slices by value. Refusal: 1, the slices are not those of a table, or it has no bucket b.
#[tactic(auto, using(crate::proofs::Stores::inside), unfolding(crate::specs::Buckets::taking))]
pub fn take_bucket(words: &[u64], deltas: &[u8], b: usize) -> Result<Bucket, ShapeError>
    ensures { taken result ≡ taking words.now deltas.now b }
{
    if has_bucket(words, deltas, b) {
        Ok(read_bucket(words, deltas, b))
    } else {
        Err(ShapeError)
    }
}

fn put_cells(words: &mut [u64], b: usize, bucket: Bucket)
    requires { 12 * b + 11 < length words.old }
    ensures { words.new ≡ words_with words.old b bucket }
{
    for (j, &cell) in bucket.cells.iter().enumerate() {
        slices::fill_cell(words, 4 * b + j, cell);
    }
}

fn put_deltas(deltas: &mut [u8], b: usize, bucket: Bucket)
    requires { 8 * b + 7 < length deltas.old }
    ensures { deltas.new ≡ deltas_with deltas.old b bucket }
{
    let at = 8 * b;
    deltas[at..at + 8].copy_from_slice(&bucket.deltas);
}

// Any bucket, written as bucket b: its twelve words and eight deltas and nothing else. A sound table may be sound no more.
// Refusal: 1, the slices are not those of a table, or it has no bucket b; both slices are left.
#[tactic(auto, using(crate::proofs::Stores::inside), unfolding(crate::specs::Buckets::putting))]
pub fn put_bucket(
    words: &mut [u64],
    deltas: &mut [u8],
    b: usize,
    bucket: Bucket,
) -> Result<(), ShapeError>
    ensures { left result words.new deltas.new ≡ putting words.old deltas.old b bucket }
{
    if !has_bucket(words, deltas, b) {
        return Err(ShapeError);
    }
    put_cells(words, b, bucket);
    put_deltas(deltas, b, bucket);
    Ok(())
}
