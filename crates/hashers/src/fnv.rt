// Fnv: FNV-1a, byte by byte.
ghost use Rattle.std.specs.Prelude.{◌≡◌};
ghost use Rattle.hashers.specs.Published.{fnv_byte};
ghost use Rattle.hashers.specs.Writes.{fnv_write, fnv_start};
ghost use Rattle.hashers.specs.Keys.{hash_of};
ghost use Rattle.hashers.specs.declared.Hasher.TheVariants.{Fnv};

// One byte of FNV-1a: xor, then multiply by the prime.
#[tactic(auto, unfolding(crate::specs::Published::fnv_byte))]
fn fnv_byte(state: u64, byte: u8) -> u64
    ensures { result ≡ fnv_byte state byte }
{
    util::wrapping_mul(state ^ u64::from(byte), 0x100000001b3)
}

// One of three types by name, as in simple.rt.
#[derive(Clone, Copy)]
pub struct FnvHasher(pub u64);

impl FnvHasher {
    pub const START: FnvHasher = FnvHasher(0xcbf29ce484222325);

    pub fn new() -> Self
        ensures { result ≡ fnv_start }
    {
        Self::START
    }

    // Any number of bytes is mixed into the state.
    pub fn write(self, bytes: &[u8]) -> FnvHasher
        ensures { result ≡ fnv_write self bytes.now }
    {
        let mut state = self.0;
        for &byte in bytes {
            state = fnv_byte(state, byte);
        }
        FnvHasher(state)
    }

    pub fn finish(self) -> u64
        ensures { result ≡ self.0 }
    {
        self.0
    }
}

// The hash of a key: of its 8 little-endian bytes.
pub(crate) fn fnv_key(key: u64) -> u64
    ensures { result ≡ hash_of Fnv key }
{
    FnvHasher::START.write(&key.to_le_bytes()).0
}
