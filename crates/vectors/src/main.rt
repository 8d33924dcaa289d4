// Prints what the hashers and the helpers give for published vectors and for the edges of their rules.
// The file stdout beside src/ holds what is right; compare/vectors writes it anew without this code.
#![tactic(auto)]

use hashers::{Hasher, MurmurHasher, Unwritten};
use std::io;
use streams::Output;

// One line: a name, and a value in 16 hexadecimal digits.
fn show(rt: &impl Print, name: &str, value: u64) -> io::Result<()> {
    println!(rt; "{name} {value:016x}")
}

fn fnv(rt: &impl Print) -> io::Result<()> {
    let texts = [
        "", "a", "b", "c", "d", "e", "f", "fo", "foo", "foob", "fooba", "foobar",
    ];
    for text in texts {
        let hash = hashers::leapfrog_hash_fnv(text.as_bytes());
        println!(rt; "fnv '{text}' {hash:016x}")?;
    }
    Ok(())
}

// At most 8 bytes are taken: 9 are refused, which gives 0.
fn short(rt: &impl Print) -> io::Result<()> {
    let texts = ["", "a", "eight888", "nine99999"];
    for text in texts {
        let hash = hashers::leapfrog_hash_murmur(text.as_bytes());
        println!(rt; "murmur '{text}' {hash:016x}")?;
    }
    for text in texts {
        let hash = hashers::leapfrog_hash_simple(text.as_bytes());
        println!(rt; "simple '{text}' {hash:016x}")?;
    }
    Ok(())
}

fn keys(rt: &impl Print) -> io::Result<()> {
    let cases = [
        ("murmur key 0", Hasher::Murmur, 0),
        ("murmur key 1", Hasher::Murmur, 1),
        ("murmur key 2", Hasher::Murmur, 2),
        ("murmur key 2^64-1", Hasher::Murmur, u64::MAX),
        ("fnv key 0", Hasher::Fnv, 0),
        ("fnv key 1", Hasher::Fnv, 1),
        ("fnv key 2^64-1", Hasher::Fnv, u64::MAX),
        (
            "fnv key 3608874253b96bd5",
            Hasher::Fnv,
            0x3608_8742_53b9_6bd5,
        ),
        ("simple key 2^64-1", Hasher::Simple, u64::MAX),
    ];
    for (name, hasher, key) in cases {
        show(rt, name, hashers::hash_of(hasher, key))?;
    }
    Ok(())
}

// Two writes: the second replaces what the first left, and one that is refused leaves it.
fn twice(rt: &impl Print) -> io::Result<()> {
    let Ok(one) = MurmurHasher::new().write(b"first") else {
        return Ok(());
    };
    match one.write(b"a") {
        Ok(h) => show(rt, "murmur 'first' then 'a'", h.finish())?,
        Err(Unwritten(h)) => show(rt, "refused", h.finish())?,
    }
    match one.write(b"nine99999") {
        Ok(h) => show(rt, "taken", h.finish()),
        Err(Unwritten(h)) => show(rt, "murmur 'first' then 'nine99999', refused", h.finish()),
    }
}

fn powers(rt: &impl Print) -> io::Result<()> {
    let cases = [
        ("round 0", 0),
        ("round 1", 1),
        ("round 2", 2),
        ("round 3", 3),
        ("round 129", 129),
        ("round 2^63-1", 0x7fff_ffff_ffff_ffff),
        ("round 2^63", 0x8000_0000_0000_0000),
        ("round 2^63+1", 0x8000_0000_0000_0001),
    ];
    for (name, x) in cases {
        show(rt, name, util::round_to_pow2(x))?;
    }
    Ok(())
}

fn main(rt: HostRuntime) -> io::Result<()> {
    let rt = Output(rt);
    fnv(&rt)?;
    short(&rt)?;
    keys(&rt)?;
    twice(&rt)?;
    powers(&rt)
}
