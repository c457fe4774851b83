//! Files in memory, by what stands under their names.
use crate::fails::Fails;
use crate::texts::ZONE;
use no_memory::NoMemory;
use outside::{File, MemShelf};
use std::alloc::Global;

/// What stands under a name.
#[derive(Clone, Copy)]
pub enum Held {
    /// The zone, and these nodes and groups.
    Topology(&'static str),
    /// These octets.
    Bytes(&'static [u8]),
    /// So many octets 0.
    Zeros(usize),
    /// No file.
    Missing,
}

/// A topology's text. A table that is written as inline values stands above the header of the zone.
fn zoned(alloc: Global, rest: &str) -> Result<Vec<u8>, NoMemory> {
    let (first, second) = if rest.starts_with("node") {
        (rest, ZONE)
    } else {
        (ZONE, rest)
    };
    let mut text = Vec::from_slice(alloc, first.as_bytes())?;
    text.extend_from_slice(second.as_bytes())?;
    Ok(text)
}

/// The file of a name. There is none under a name of more than 255 octets.
fn held_file(alloc: Global, name: &str, held: Held) -> Result<Option<File>, NoMemory> {
    if name.len() > 255 {
        return Ok(None);
    }
    match held {
        Held::Topology(rest) => Ok(Some(File::new(name, zoned(alloc, rest)?))),
        Held::Bytes(bytes) => Ok(Some(File::new(name, Vec::from_slice(alloc, bytes)?))),
        Held::Zeros(count) => Ok(Some(File::zeros(name, count))),
        Held::Missing => Ok(None),
    }
}

/// What stands under these names, of which these loads fail.
pub fn shelf_of(alloc: Global, held: &[(&str, Held)], fails: Fails) -> Result<MemShelf, NoMemory> {
    let mut files = Vec::new(alloc);
    for (name, file) in held {
        if let Some(file) = held_file(alloc, name, *file)? {
            files.push(file)?;
        }
    }
    MemShelf::new(alloc, files, 8, fails.numbers(alloc)?)
}
