//! What the generator makes.

use crate::audited::try_audit;
use crate::folder::ObjectFile;
use cell_gen::generate;
use cell_world::File;
use std::alloc::Global;
use std::test::*;

// The hashes are those of files that `cellas` wrote of sources that a program in another language made,
// which drew the crates by itself, and made the script.

/// A hash of the bytes, behind those that came to `hash`.
fn hash_of(hash: u32, bytes: &[u8]) -> u32 {
    let mut hash = hash;
    for byte in bytes {
        hash = hash.wrapping_mul(31).wrapping_add(u32::from(*byte));
    }
    hash
}

/// A hash of all names and bytes.
fn hash_of_all(files: &[File]) -> u32 {
    let mut hash = 0;
    for file in files {
        hash = hash_of(hash, file.name.bytes());
        hash = hash_of(hash, file.bytes.as_slice());
    }
    hash
}

#[test]
fn many_crates(rt: HostRuntime) -> Result<(), Fail> {
    let made = generate(rt.alloc(), 400, 0)?;
    assert_eq!(rt; made.files.len(), 800);
    assert_eq!(rt; hash_of_all(made.files.as_slice()), 2342950620);
    assert_eq!(rt; made.script.as_slice().len(), 13682);
    assert_eq!(rt; hash_of(0, made.script.as_slice()), 1607308847);
    Ok(())
}

/// The same files, as a folder of a test has them.
fn folder_of(alloc: Global, made: &[File]) -> Result<Vec<ObjectFile<'_>>, Fail> {
    let mut files = Vec::new(alloc);
    for file in made {
        files.push(ObjectFile {
            name: std::str::from_utf8(file.name.bytes()).ok().ok_or("UTF-8")?,
            bytes: Vec::from_slice(alloc, file.bytes.as_slice())?,
        })?;
    }
    Ok(files)
}

#[test]
fn generated_dump(rt: HostRuntime) -> Result<(), Fail> {
    let made = generate(rt.alloc(), 400, 0)?;
    let files = folder_of(rt.alloc(), &made.files)?;
    let script = std::str::from_utf8(made.script.as_slice())
        .ok()
        .ok_or("UTF-8")?;
    let words = ["d", "s", "--pages", "4096"];
    try_audit(&rt, rt.alloc(), &words, &files, script)
}
