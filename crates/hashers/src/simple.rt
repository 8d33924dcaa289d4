// Simple: the number of the bytes itself.
ghost use Rattle.std.specs.Prelude.{◌≡◌};
ghost use Rattle.hashers.specs.Writes.{simple_said, simple_write, simple_start};

use crate::Unwritten;

// One of three types by name, as document 01 lists the hashers; docs/API.md and the laws of outcomes speak of each.
#[derive(Clone, Copy)]
pub struct SimpleHasher(pub u64);

impl SimpleHasher {
    pub const START: SimpleHasher = SimpleHasher(0);

    pub fn new() -> Self
        ensures { result ≡ simple_start }
    {
        Self::START
    }

    // At most 8 bytes replace the state. Refusal: 8, more than 8 bytes.
    pub fn write(self, bytes: &[u8]) -> Result<SimpleHasher, Unwritten<SimpleHasher>>
        ensures { simple_said result ≡ simple_write self.0 bytes.now }
    {
        let state = self.0;
        match util::load_u64_le(bytes) {
            Ok(n) => Ok(SimpleHasher(n)),
            Err(util::TooLong) => Err(Unwritten(SimpleHasher(state))),
        }
    }

    pub fn finish(self) -> u64
        ensures { result ≡ self.0 }
    {
        self.0
    }
}
