// The hashers by their numbers, which the compact form has. Two functions and no TryFrom: Hasher is another crate's type.
ghost use Rattle.std.specs.Prelude.{◌≡◌, ◌↔◌, ◌≤◌, IsSome, IfSome};
ghost use Rattle.forms.specs.Hashers.{number_of};

use hashers::Hasher;

pub fn hasher_of(number: u64) -> Option<Hasher>
    ensures known { IsSome result ↔ (1 ≤ number) × (number ≤ 3) }
    ensures value { IfSome result (λ hasher. number_of hasher ≡ number) }
{
    match number {
        1 => Some(Hasher::Simple),
        2 => Some(Hasher::Murmur),
        3 => Some(Hasher::Fnv),
        _ => None,
    }
}

pub fn number_of(hasher: Hasher) -> u64
    ensures { result ≡ number_of hasher }
{
    match hasher {
        Hasher::Simple => 1,
        Hasher::Murmur => 2,
        Hasher::Fnv => 3,
    }
}
