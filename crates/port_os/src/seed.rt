// Seeds.
use std::io::Read;
use std::rt::Files;
use std::{fs, io};

/// A fresh seed: 32 bytes of the system's random generator.
pub fn read_seed(rt: &impl Files) -> io::Result<[u8; 32]> {
    let mut seed = [0; 32];
    fs::open(rt, "/dev/urandom")?.read_exact(&mut seed)?;
    Ok(seed)
}
