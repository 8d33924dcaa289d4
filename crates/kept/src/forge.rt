// Requests that forge a word or a delta. Each is nothing where there is no such word or delta, or the number is none for it.
ghost use Rattle.std.specs.Prelude.{◌≡◌, ◌↔◌, ◌*◌, ◌<◌, IsSome, length};
ghost use Rattle.forms.specs.Kinds.{group_of};
ghost use Rattle.forms.specs.declared.kind.Group.TheVariants.{Forged};

use crate::Memory;
use forms::{Kind, Request};

// word I X, spare_word I X: word I becomes X.
fn word(words: &mut [u64], i: u64, x: u64) -> Option<()>
    ensures { IsSome result ↔ (i < length words.old) }
{
    *words.get_mut(i as usize)? = x;
    Some(())
}

// delta I X, spare_delta I X: delta I becomes X.
fn delta(deltas: &mut [u8], i: u64, x: u64) -> Option<()>
    ensures { IsSome result ↔ (i < length deltas.old) × (x < 256) }
{
    *deltas.get_mut(i as usize)? = u8::try_from(x).ok()?;
    Some(())
}

pub fn change(memory: &mut Memory, request: Request) -> Option<()>
    ensures { IsSome result → group_of request.kind ≡ Forged }
{
    let Request { kind, a, b, .. } = request;
    match kind {
        Kind::Word => word(memory.table.words, a, b),
        Kind::Delta => delta(memory.table.deltas, a, b),
        Kind::SpareWord => word(memory.spare.words, a, b),
        Kind::SpareDelta => delta(memory.spare.deltas, a, b),
        _ => None,
    }
}
