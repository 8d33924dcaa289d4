// The cells that are lent, one line each.
use crate::{Memory, State};
use forms::line::Line;
use forms::text;
use std::io;

// Writes so many cells as deltas are lent for. Bucket i/4 has the first deltas of its four cells, and then their second ones.
pub fn show(rt: &impl Print, memory: &Memory, state: &State) -> io::Result<()> {
    let cells = memory.table.words.as_chunks().0;
    let buckets = memory.table.deltas.as_chunks::<8>().0;
    for (i, words) in cells.iter().take(state.lent.deltas / 2).enumerate() {
        if let Some(deltas) = buckets.get(i / 4) {
            let mut line = Line::<512>::new();
            let _ = text::cell(&mut line, i, *words, [deltas[i % 4], deltas[i % 4 + 4]]);
            line.print(rt)?;
        }
    }
    Ok(())
}
