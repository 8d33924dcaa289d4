// A source, read block by block into memory that is lent: std's readers of lines allocate.
ghost use Rattle.std.specs.Prelude.{◌≡◌, ◌↔◌, ◌≤◌, ◌-◌, IsTrue, IfOk, length, take, drop};

use crate::line::Line;
use std::io;
use std::io::Read;

// Reads until the buffer is full or the source ends, and returns how many bytes it put at the buffer's start. Each turn but the last
// reads at least one.
fn read_full<R: Read>(source: &mut R, buffer: &mut [u8]) -> io::Result<usize>
    ensures { IfOk result (λ n. n ≤ length buffer.new) }
{
    let mut n = 0;
    for _ in 0..buffer.len() {
        let read = source.read(&mut buffer[n..])?;
        if read == 0 {
            break;
        }
        n += read;
    }
    Ok(n)
}

#[derive(Drop)]
pub struct Reader<'a, R> {
    source: &'a mut R,
    // The block that was read last, and which part of it is still to be taken.
    block: &'a mut [u8],
    at: usize,
    end: usize,
}

impl<'a, R: Read> Reader<'a, R> {
    // With the first block read.
    pub fn new(source: &'a mut R, block: &'a mut [u8]) -> io::Result<Reader<'a, R>> {
        let end = read_full(source, block)?;
        Ok(Reader {
            source,
            block,
            at: 0,
            end,
        })
    }

    // The part of the block that is still to be taken.
    pub fn rest(&self) -> &[u8]
        ensures { self.now.end ≤ length self.now.block.now → result.now ≡ take (self.now.end - self.now.at) (drop self.now.at self.now.block.now) }
    {
        self.block.get(self.at..self.end).unwrap_or(&[])
    }

    // Whether the last block is empty, as the one behind the source's end is.
    pub fn has_ended(&self) -> bool
        ensures { IsTrue result ↔ (self.now.end ≡ 0) }
    {
        self.end == 0
    }

    // Reads the next block.
    pub fn refill(&mut self) -> io::Result<()> {
        self.at = 0;
        self.end = read_full(self.source, self.block)?;
        Ok(())
    }

    // Reads the next line, and tells whether there is one. A last line may have no end of its own. The turns are counted, so that the
    // loop ends.
    pub fn read_line<const N: usize>(&mut self, line: &mut Line<N>) -> io::Result<bool> {
        line.clear();
        for _ in 0..u64::MAX {
            if self.has_ended() {
                break;
            }
            if self.take(line) {
                return Ok(true);
            }
            self.refill()?;
        }
        Ok(!line.is_empty())
    }

    // Takes what is there of a line, and tells whether its end is there.
    fn take<const N: usize>(&mut self, line: &mut Line<N>) -> bool {
        let rest = self.rest();
        match rest.iter().position(|byte| *byte == b'\n') {
            Some(n) => {
                line.extend(&rest[..n]);
                self.at = self.at.saturating_add(n + 1);
                true
            }
            None => {
                line.extend(rest);
                false
            }
        }
    }
}
