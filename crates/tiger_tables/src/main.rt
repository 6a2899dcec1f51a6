//! Writes the four tables of Tiger, 8,192 bytes, to standard output; with the argument `sha256`, the
//! SHA-256 of these bytes as a line of text.
#![tactic(auto)]

mod tables;

use sha2::{Digest, Sha256};
use std::io::Write;
use std::{env, io};

fn main(rt: HostRuntime) -> io::Result<()> {
    let alloc = rt.alloc();
    let bytes = tables::bytes(alloc)?;
    let wants_digest = env::args(&rt)?
        .skip(1)
        .any(|word| word.as_str() == "sha256");
    if wants_digest {
        let digest = Sha256::digest(bytes.as_slice());
        let text = hex::encode(alloc, digest)?;
        return println!(rt; "{text}");
    }
    io::writer(&rt).write_all(&bytes)
}

#[cfg(test)]
mod tests;
