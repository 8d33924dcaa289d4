// Serves requests on a lent table: what the programs `answers` and `replay` share. A request is served in three steps: what is
// kept between requests, the call with the record that it leaves, and the answer with a digest.
#![tactic(auto)]

pub mod lines;

use forms::{Answer, Group, Kind, Request, Said, Told};
use kept::{Memory, State, bucket, forge};
use parts::Half;

// A request on both halves.
fn grow(memory: &mut Memory, state: &mut State, request: Request) -> Option<Told> {
    let State { lent, spare, .. } = *state;
    let growing = &mut state.growing;
    let upper = &mut memory.spare;
    memory.table.lend(lent, |lower_words, lower_deltas| {
        upper.lend(spare, |upper_words, upper_deltas| {
            grows::serve(
                lower_words,
                lower_deltas,
                upper_words,
                upper_deltas,
                growing,
                request,
            )
        })
    })??
}

// Carries out a request; nothing where it cannot be.
fn serve(memory: &mut Memory, state: &mut State, request: Request) -> Option<Told> {
    state.prepare(request);
    let done = Told::plain(Said::Done);
    let lent = state.lent;
    let table = &mut state.growing.table;
    match request.kind.group() {
        Group::Kept => state.change(request).map(|()| done),
        Group::Forged => forge::change(memory, request).map(|()| done),
        Group::Fixed => memory.table.lend(lent, |words, deltas| {
            calls::serve(words, deltas, table, request)
        })?,
        Group::Buckets => memory.table.lend(lent, |words, deltas| {
            bucket::serve(words, deltas, table.hasher, request)
        })?,
        Group::Growing => grow(memory, state, request),
        Group::Held => {
            let hand = &mut state.hand;
            memory.table.lend(lent, |words, deltas| {
                cursors::serve(words, deltas, table, hand, request)
            })?
        }
    }
}

// How many cells the lent slices hold; 0 for a bad shape.
fn capacity(memory: &Memory, state: &State) -> u64 {
    let words = memory.table.words.get(..state.lent.words);
    let deltas = memory.table.deltas.get(..state.lent.deltas);
    match (words, deltas) {
        (Some(words), Some(deltas)) => calls::capacity_of(words, deltas),
        _ => 0,
    }
}

// The digest, where the state or the request asks for one. One that is 0 counts as none.
fn digest(memory: &Memory, state: &State, kind: Option<Kind>) -> Option<u64> {
    if state.digests || kind == Some(Kind::Digest) {
        Some(state.digest(memory)).filter(|digest| *digest != 0)
    } else {
        None
    }
}

// The answer that goes with what was told, and with what stands there now.
fn answer_of(memory: &Memory, state: &State, kind: Option<Kind>, told: Told) -> Answer {
    let table = state.growing.table;
    Answer {
        told,
        hasher: table.hasher,
        live: table.live as u64,
        capacity: capacity(memory, state),
        digest: digest(memory, state, kind),
    }
}

// Says where a growing table is: its size in the place of the cells that are lent, its half as the third value.
fn placed(answer: Answer, state: &State) -> Answer {
    let third = match state.growing.half {
        Half::Lower => 0,
        Half::Upper => 1,
    };
    Answer {
        told: Told {
            third,
            ..answer.told
        },
        capacity: state.growing.size as u64,
        ..answer
    }
}

// Serves one request, or says that it is none.
pub fn turn(memory: &mut Memory, state: &mut State, request: Option<Request>) -> Answer {
    let told = request.and_then(|request| serve(memory, state, request));
    let kind = request.map(|request| request.kind);
    let answer = answer_of(
        memory,
        state,
        kind,
        told.unwrap_or(Told::plain(Said::Unknown)),
    );
    if kind.is_some_and(Kind::grows) {
        return placed(answer, state);
    }
    answer
}
