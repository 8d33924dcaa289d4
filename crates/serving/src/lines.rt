// Requests as lines of text. Each is answered by the line and its answer; in a replay it is held to the answer that stands
// behind it. Empty lines and lines that start with '#' are no requests.
use crate::turn;
use forms::line::Line;
use forms::reader::Reader;
use forms::{Kind, text};
use kept::show::show;
use kept::{Memory, State};
use std::io;
use std::io::Read;

// A line of input: one that fills its room is too long to be a request.
type Input = Line<256>;

type Output = Line<512>;

// What is done with answers. An enum: two steps of the way differ by it, and a closure for each would be handed down as far.
#[derive(Clone, Copy, Debug, PartialEq, Eq)]
pub enum Mode {
    // They are written, and so are lines that are no requests.
    Answer,
    // They are held to the recorded ones.
    Replay,
}

// How many requests there were, and how many answers were not those recorded.
#[derive(Clone, Copy, Default)]
pub struct Tally {
    pub requests: u64,
    pub differences: u64,
}

impl Tally {
    fn count(&mut self, differs: bool) {
        self.requests = self.requests.wrapping_add(1);
        self.differences = self.differences.wrapping_add(u64::from(differs));
    }
}

// The request that stands in a line, before the ':' of a recorded answer.
fn asked(line: &[u8]) -> &[u8] {
    line.split(|byte| *byte == b':').next().unwrap_or(line)
}

// The recorded answer without its note, which starts with " #".
fn without_note(recorded: &[u8]) -> &[u8] {
    match recorded.iter().position(|byte| *byte == b'#') {
        Some(note) => &recorded[..note.saturating_sub(1)],
        None => recorded,
    }
}

// Writes a line as it is.
fn echo(rt: &impl Print, line: &[u8]) -> io::Result<()> {
    rt.write_all(line)?;
    rt.write_all(b"\n")
}

// Whether what was made is not the recorded line up to its note; then both are written.
fn differs(rt: &impl Print, made: &mut Output, recorded: &[u8]) -> io::Result<bool> {
    if made.as_slice() == without_note(recorded) {
        return Ok(false);
    }
    print!(rt; "recorded ")?;
    echo(rt, recorded)?;
    print!(rt; "here     ")?;
    made.print(rt)?;
    Ok(true)
}

// Serves the request in a line. In a replay it tells whether the answer differs.
fn answer(
    rt: &impl Print,
    memory: &mut Memory,
    state: &mut State,
    line: &[u8],
    mode: Mode,
) -> io::Result<bool> {
    let asked = asked(line);
    let request = text::read(asked);
    let kind = request.map(|request| request.kind);
    let answer = turn(memory, state, request);
    let mut made = Output::new();
    made.extend(asked);
    made.extend(b": ");
    let _ = text::answer(&mut made, kind, &answer);
    let differs = match mode {
        Mode::Answer => {
            made.print(rt)?;
            false
        }
        Mode::Replay => differs(rt, &mut made, line)?,
    };
    if kind == Some(Kind::Show) {
        show(rt, memory, state)?;
    }
    Ok(differs)
}

// Serves a line. One that is no request is written as it is.
fn one(
    rt: &impl Print,
    memory: &mut Memory,
    state: &mut State,
    input: &Input,
    mode: Mode,
    tally: &mut Tally,
) -> io::Result<()> {
    let line = input.as_slice();
    if input.is_full() {
        println!(rt; "a line that is too long: no such request")?;
        tally.count(true);
    } else if line.is_empty() || line.starts_with(b"#") {
        if mode == Mode::Answer {
            echo(rt, line)?;
        }
    } else {
        tally.count(answer(rt, memory, state, line, mode)?);
    }
    Ok(())
}

// Serves all lines of what is read. The turns are counted, so that the loop ends.
pub fn serve<R: Read>(
    rt: &impl Print,
    memory: &mut Memory,
    reader: &mut Reader<'_, R>,
    mode: Mode,
) -> io::Result<Tally> {
    let mut state = State::start();
    let mut tally = Tally::default();
    let mut line = Input::new();
    for _ in 0..u64::MAX {
        if !reader.read_line(&mut line)? {
            break;
        }
        one(rt, memory, &mut state, &line, mode, &mut tally)?;
    }
    Ok(tally)
}
