// Requests and answers, and the two forms that they have: bytes, and lines of text. compare/README.md has the list of
// requests. A kind of request has its number and its word here, and what it does in the crate `serving`.
#![tactic(auto)]

pub mod bytes;
pub mod digest;
pub mod hasher;
pub mod kind;
pub mod line;
pub mod reader;
pub mod said;
pub mod text;
pub mod told;

use hashers::Hasher;
pub use kind::{Group, Kind};
pub use said::Said;
pub use told::Told;

// What is asked: a kind, and the numbers that it carries, four whatever is asked, as the compact form has them.
#[derive(Clone, Copy)]
pub struct Request {
    pub kind: Kind,
    pub a: u64,
    pub b: u64,
    pub c: u64,
    pub d: u64,
}

// What was told; the record after it; the number of cells, 0 for a bad shape; and the digest, which is not 0.
#[derive(Clone, Copy)]
pub struct Answer {
    pub told: Told,
    pub hasher: Hasher,
    pub live: u64,
    pub capacity: u64,
    pub digest: Option<u64>,
}
