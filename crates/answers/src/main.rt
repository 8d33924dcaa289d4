// Reads requests from standard input and writes each answer to standard output. compare/README.md says which there are.
// Input that starts with a byte 0 is in the compact form, 40 bytes a request and 72 an answer. Any other input is text,
// a request on each line.
#![tactic(auto)]

use forms::bytes;
use forms::reader::Reader;
use kept::{Memory, State, with_memory};
use serving::lines::Mode;
use serving::{lines, turn};
use std::io;
use std::io::Read;
use streams::{Input, Output};

// How many requests are read at once, at most.
const BLOCK: usize = 512;

// Answers the whole requests in a block of input.
fn block(rt: &impl Print, memory: &mut Memory, state: &mut State, input: &[u8]) -> io::Result<()> {
    let requests = input.as_chunks().0;
    let mut answers = [[0; 72]; BLOCK];
    for (answer, request) in answers.iter_mut().zip(requests) {
        *answer = bytes::write(&turn(memory, state, bytes::read(request)));
    }
    rt.write_all(answers[..requests.len().min(BLOCK)].as_flattened())
}

// Answers all requests in the compact form. The turns are counted, so that the loop ends.
fn compact<R: Read>(
    rt: &impl Print,
    memory: &mut Memory,
    reader: &mut Reader<'_, R>,
) -> io::Result<()> {
    let mut state = State::start();
    for _ in 0..u64::MAX {
        if reader.has_ended() {
            break;
        }
        block(rt, memory, &mut state, reader.rest())?;
        reader.refill()?;
    }
    Ok(())
}

// Answers all requests in the form that the input is in.
fn run<R: Read>(rt: &impl Print, memory: &mut Memory, source: &mut R) -> io::Result<()> {
    let mut input = [0; 20_480];
    let mut reader = Reader::new(source, &mut input)?;
    if reader.rest().starts_with(&[0]) {
        return compact(rt, memory, &mut reader);
    }
    lines::serve(rt, memory, &mut reader, Mode::Answer)?;
    Ok(())
}

fn main(rt: HostRuntime) -> io::Result<()> {
    with_memory(|memory| run(&Output(&rt), memory, &mut Input(rt.stdin())))
}
