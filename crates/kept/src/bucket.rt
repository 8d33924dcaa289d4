// Buckets out and in.
ghost use Rattle.std.specs.Prelude.{◌≡◌, ◌↔◌, IsSome};
ghost use Rattle.buckets.specs.Buckets.{taking};
ghost use Rattle.forms.specs.Kinds.{group_of};
ghost use Rattle.forms.specs.declared.kind.Group.TheVariants.{Buckets};

use buckets::{Bucket, Cell, Unchanged};
use forms::digest::{mix, mix_all};
use forms::{Kind, Request, Said, Told};
use hashers::Hasher;

fn mix_cell(digest: u64, cell: Cell) -> u64 {
    mix(mix(mix(digest, cell.hash), cell.key), cell.value)
}

// One number for a bucket: its cells and its deltas.
fn digest_of(bucket: Bucket) -> u64 {
    let cells = bucket
        .cells
        .iter()
        .fold(1, |digest, cell| mix_cell(digest, *cell));
    mix_all(cells, &bucket.deltas)
}

// Bucket B, or an empty one under a refusal.
fn taken(words: &[u64], deltas: &[u8], b: usize) -> Bucket
    ensures { result ≡ (taking words.now deltas.now b).bucket }
{
    buckets::take_bucket(words, deltas, b).unwrap_or_default()
}

// take B: the bucket by its digest; that of an empty one under a refusal.
fn take(words: &[u64], deltas: &[u8], b: usize) -> Told {
    let answer = buckets::take_bucket(words, deltas, b);
    Told {
        first: digest_of(answer.unwrap_or_default()),
        ..Told::of(answer.map(|_bucket| Told::plain(Said::Taken)))
    }
}

fn put(words: &mut [u64], deltas: &mut [u8], b: usize, bucket: Bucket) -> Told {
    Told::of(buckets::put_bucket(words, deltas, b, bucket).map(|()| Told::plain(Said::Put)))
}

// copy B C: bucket B is taken out, an empty one under a refusal, and put back as bucket C.
fn copy(words: &mut [u64], deltas: &mut [u8], b: usize, c: usize) -> Told {
    let bucket = taken(words, deltas, b);
    put(words, deltas, c, bucket)
}

// cell B J: cell J of bucket B.
fn cell(words: &[u64], deltas: &[u8], b: usize, j: usize) -> Told {
    Told::of(
        taken(words, deltas, b).cell(j).map(|cell| Told {
            second: cell.key,
            third: cell.value,
            ..Told::carrying(Said::Cell, cell.hash)
        }),
    )
}

// change B J KEY VALUE: bucket B is taken out, its cell J becomes that key's, and it is put back where it was. Where it has no cell J,
// the bucket by its digest.
fn change(words: &mut [u64], deltas: &mut [u8], b: usize, j: usize, new: Cell) -> Told {
    let bucket = taken(words, deltas, b);
    match bucket.with_cell(j, new) {
        Ok(changed) => put(words, deltas, b, changed),
        Err(Unchanged(bucket)) => Told::carrying(Said::Shape, digest_of(bucket)),
    }
}

// Serves a request for buckets; nothing where it is none.
pub fn serve(words: &mut [u64], deltas: &mut [u8], hasher: Hasher, request: Request) -> Option<Told>
    ensures { IsSome result ↔ (group_of request.kind ≡ Buckets) }
{
    let Request { kind, a, b, c, d } = request;
    let first = a as usize;
    let second = b as usize;
    match kind {
        Kind::Take => Some(take(words, deltas, first)),
        Kind::Copy => Some(copy(words, deltas, first, second)),
        Kind::Cell => Some(cell(words, deltas, first, second)),
        Kind::Change => {
            let new = Cell {
                hash: hashers::hash_of(hasher, c),
                key: c,
                value: d,
            };
            Some(change(words, deltas, first, second, new))
        }
        _ => None,
    }
}
