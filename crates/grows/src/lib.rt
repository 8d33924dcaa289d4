// Moves and growing tables as requests. The lower half is what is lent of the table's arrays, the upper half what is lent of the
// spare ones; for a plain move they are the table and the destination. The halves are four slices and no struct: a struct's field that
// is a `&mut` is not lent as `&` beside another that is lent as `&mut`, which a move and a remove need.
#![tactic(auto)]

mod answers;

use forms::digest::mix_slice;
use forms::hasher::hasher_of;
use forms::{Kind, Request, Said, Told};
use parts::{Growing, Half};

// parts: the parts that are handed back, each by its digest.
fn used(words: &[u64], deltas: &[u8]) -> Told {
    Told {
        second: mix_slice(1, deltas),
        ..Told::carrying(Said::Parts, mix_slice(1, words))
    }
}

// in_use SIZE HALF: the record says so from now on; HALF is 0 for the lower one.
fn place(growing: &mut Growing, size: u64, half: u64) -> Told {
    growing.size = size as usize;
    growing.half = if half == 0 { Half::Lower } else { Half::Upper };
    Told::plain(Said::Done)
}

// Serves a request on the halves that are lent; nothing where it is none.
pub fn serve(
    lower_words: &mut [u64],
    lower_deltas: &mut [u8],
    upper_words: &mut [u64],
    upper_deltas: &mut [u8],
    growing: &mut Growing,
    request: Request,
) -> Option<Told> {
    let Request { kind, a, b, c, .. } = request;
    let record = *growing;
    let table = parts::table(record);
    Some(match kind {
        Kind::Move => answers::moved(
            moves::move_table(lower_words, lower_deltas, table, upper_words, upper_deltas),
            growing,
        ),
        Kind::MoveBack => answers::moved(
            moves::move_table(upper_words, upper_deltas, table, lower_words, lower_deltas),
            growing,
        ),
        Kind::Halves => answers::cleared(
            halves::clear_halves(
                lower_words,
                lower_deltas,
                upper_words,
                upper_deltas,
                b as usize,
                hasher_of(c)?,
            ),
            growing,
        ),
        Kind::ClearHalves => answers::cleared(
            halves::clear_halves(
                lower_words,
                lower_deltas,
                upper_words,
                upper_deltas,
                a as usize,
                hasher_of(b)?,
            ),
            growing,
        ),
        Kind::InUse => place(growing, a, b),
        Kind::Grow => answers::grown(
            growth::insert(
                lower_words,
                lower_deltas,
                upper_words,
                upper_deltas,
                record,
                a,
                b,
            ),
            growing,
        ),
        Kind::GrowFind => answers::found(halves::find(
            lower_words,
            lower_deltas,
            upper_words,
            upper_deltas,
            record,
            a,
        )),
        Kind::GrowRemove => answers::removed(
            halves::remove(
                lower_words,
                lower_deltas,
                upper_words,
                upper_deltas,
                record,
                a,
            ),
            growing,
        ),
        Kind::Parts => used(
            parts::used_words(lower_words, upper_words, record),
            parts::used_deltas(lower_deltas, upper_deltas, record),
        ),
        Kind::GrowCheck => {
            let words = parts::used_words(lower_words, upper_words, record);
            let deltas = parts::used_deltas(lower_deltas, upper_deltas, record);
            Told::of(checker::check(words, deltas, table).map(|()| Told::plain(Said::Sound)))
        }
        _ => return None,
    })
}
