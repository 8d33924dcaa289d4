// The hashers for C, by include/leapfrog_hash.h: bytes by pointer and length. C links each by its own name.
#![tactic(auto)]

ghost use Rattle.std.specs.Prelude.{◌≡◌};
ghost use Rattle.hashers.specs.Exports.{simple_c, murmur_c, fnv_c};

#[unsafe(no_mangle)]
pub extern "C" fn leapfrog_hash_simple(bytes: &[u8]) -> u64
    ensures { result ≡ simple_c bytes.now }
{
    hashers::leapfrog_hash_simple(bytes)
}

#[unsafe(no_mangle)]
pub extern "C" fn leapfrog_hash_murmur(bytes: &[u8]) -> u64
    ensures { result ≡ murmur_c bytes.now }
{
    hashers::leapfrog_hash_murmur(bytes)
}

#[unsafe(no_mangle)]
pub extern "C" fn leapfrog_hash_fnv(bytes: &[u8]) -> u64
    ensures { result ≡ fnv_c bytes.now }
{
    hashers::leapfrog_hash_fnv(bytes)
}
