// Replays recorded requests from standard input, holds each answer to the one that stands behind the request, and writes
// how many requests there were and how many answers differed. compare/record writes the file stdin beside src/: the answers
// are those of the Rust or, off its domain, of the model of document 01.
#![tactic(auto)]

use forms::reader::Reader;
use kept::{Memory, with_memory};
use serving::lines;
use serving::lines::Mode;
use std::io;
use std::io::Read;
use streams::{Input, Output};

fn run<R: Read>(rt: &impl Print, memory: &mut Memory, source: &mut R) -> io::Result<()> {
    let mut input = [0; 20_480];
    let mut reader = Reader::new(source, &mut input)?;
    let all = lines::serve(rt, memory, &mut reader, Mode::Replay)?;
    println!(rt;
        "{} requests, {} differences",
        all.requests, all.differences
    )
}

fn main(rt: HostRuntime) -> io::Result<()> {
    with_memory(|memory| run(&Output(&rt), memory, &mut Input(rt.stdin())))
}
