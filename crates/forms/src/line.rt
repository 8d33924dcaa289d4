// A line of text in a fixed place. What does not fit is left out.
ghost use Rattle.std.specs.Prelude.{◌≡◌, ◌≤◌, ◌↔◌, ℕ, List, [], ◌++◌, length, take, IsTrue};

use std::marker::Model;
use std::{fmt, io};

#[derive(Drop)]
pub struct Line<const N: usize> {
    bytes: [u8; N],
    used: usize,
}

// Clauses see the bytes that are used.
impl<const N: usize> Model for Line<N> {
    ghost Value = { List ℕ };

    ghost view = { λ line. take line.used line.bytes };

    ghost invariant = { λ line. line.used ≤ N };
}

impl<const N: usize> Line<N> {
    pub fn new() -> Line<N>
        ensures { result ≡ [] }
    {
        Line {
            bytes: [0; N],
            used: 0,
        }
    }

    pub fn is_empty(&self) -> bool
        ensures { IsTrue result ↔ (self.now ≡ []) }
    {
        self.used == 0
    }

    pub fn is_full(&self) -> bool
        ensures full { IsTrue result ↔ (length self.now ≡ N) }
        ensures within { length self.now ≤ N }
    {
        self.used == N
    }

    pub fn clear(&mut self)
        ensures { self.new ≡ [] }
    {
        self.used = 0;
    }

    pub fn extend(&mut self, bytes: &[u8])
        ensures { self.new ≡ take N (self.old ++ bytes.now) }
    {
        let used = self.used;
        let n = bytes.len().min(N - used);
        let room = &mut self.bytes[..];
        room[used..used + n].copy_from_slice(&bytes[..n]);
        self.used = used + n;
    }

    pub fn as_slice(&self) -> &[u8]
        ensures { result.now ≡ self.now }
    {
        &self.bytes[..self.used]
    }

    // Writes the line to standard output, and ends it. It is bytes and need not be text, so it is not printed by println.
    pub fn print(&mut self, rt: &impl Print) -> io::Result<()> {
        self.extend(b"\n");
        rt.write_all(self.as_slice())
    }
}

impl<const N: usize> fmt::Write for Line<N> {
    ghost write_str_gives = { λ before text after. after ≡ take N (before ++ text) };

    fn write_str(&mut self, text: &str) -> fmt::Result {
        self.extend(text.as_bytes());
        Ok(())
    }
}
