// One number for slices of words and bytes, each with its length.
ghost use Rattle.std.specs.Prelude.{◌≡◌};
ghost use Rattle.forms.specs.Digests.{mix_of};

// Takes one number in. For each digest so far it is one to one, so a change of one number always shows.
#[tactic(auto, unfolding(crate::specs::Digests::mix_of, crate::specs::Digests::folded))]
pub fn mix(digest: u64, x: u64) -> u64
    ensures { result ≡ mix_of digest x }
{
    let product = (digest ^ x).wrapping_mul(0x9e37_79b9_7f4a_7c15);
    product ^ (product >> 32)
}

pub fn mix_all<T: Copy + Into<u64>>(start: u64, items: &[T]) -> u64 {
    items
        .iter()
        .fold(start, |digest, item| mix(digest, (*item).into()))
}

// The length and the items.
pub fn mix_slice<T: Copy + Into<u64>>(start: u64, items: &[T]) -> u64 {
    mix_all(mix(start, items.len() as u64), items)
}
