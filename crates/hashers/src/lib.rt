// The hashers of lib.rs: which there are, the hash of a key, and the hash of bytes, which hashers_c exports for C.
#![tactic(auto)]

mod fnv;
mod murmur;
mod simple;

ghost use Rattle.std.specs.Prelude.{◌≡◌};
ghost use Rattle.hashers.specs.Keys.{hash_of};
ghost use Rattle.hashers.specs.Exports.{simple_c, murmur_c, fnv_c};

pub use fnv::FnvHasher;
pub use murmur::MurmurHasher;
pub use simple::SimpleHasher;

// A write that was refused under 8, with the state as it was.
#[derive(Clone, Copy, Debug, PartialEq, Eq)]
pub struct Unwritten<H>(pub H);

// Which hasher a table uses. An enum and no closure: a record by value holds it.
#[derive(Clone, Copy)]
pub enum Hasher {
    Simple,
    Murmur,
    Fnv,
}

// The hash of a key: of its 8 little-endian bytes.
pub fn hash_of(hasher: Hasher, key: u64) -> u64
    ensures { result ≡ hash_of hasher key }
{
    match hasher {
        Hasher::Simple => key,
        Hasher::Murmur => murmur::fmix(key),
        Hasher::Fnv => fnv::fnv_key(key),
    }
}

// The hash of bytes from the starting state, as C is given it (hashers_c); 0 where 8 would be given. C calls each by its own name.
pub fn leapfrog_hash_simple(bytes: &[u8]) -> u64
    ensures { result ≡ simple_c bytes.now }
{
    SimpleHasher::START.write(bytes).map_or(0, |h| h.0)
}

pub fn leapfrog_hash_murmur(bytes: &[u8]) -> u64
    ensures { result ≡ murmur_c bytes.now }
{
    MurmurHasher::START.write(bytes).map_or(0, |h| h.0)
}

pub fn leapfrog_hash_fnv(bytes: &[u8]) -> u64
    ensures { result ≡ fnv_c bytes.now }
{
    FnvHasher::START.write(bytes).0
}
