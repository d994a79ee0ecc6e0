//! Object files that are assembled from sources.

use crate::folder::ObjectFile;
use crate::objects::image;
use cell_asm::{AsmFail, assemble};
use cell_object::Object;
use std::alloc::Global;
use std::test::Fail;

/// A file of a folder: its name, and the source of its object.
#[derive(Drop)]
pub struct SourceFile {
    pub name: &'static str,
    pub source: &'static str,
}

/// Assembles a source, which is short.
fn assemble_short(alloc: Global, source: &[u8]) -> Result<Object, AsmFail> {
    if source.len() > 1000 {
        return Err(AsmFail::OutOfMemory);
    }
    assemble(alloc, source)
}

/// The object file of that name, assembled from a source.
pub fn assembled(
    alloc: Global,
    name: &'static str,
    source: &str,
) -> Result<ObjectFile<'static>, Fail> {
    let object = assemble_short(alloc, source.as_bytes())
        .ok()
        .ok_or("the source has a fault")?;
    Ok(ObjectFile {
        name,
        bytes: image(alloc, &object)?,
    })
}

/// The object file of the source.
pub fn object_file(alloc: Global, file: &SourceFile) -> Result<ObjectFile<'static>, Fail> {
    assembled(alloc, file.name, file.source)
}

/// The object files of the sources.
pub fn object_files(
    alloc: Global,
    sources: &[SourceFile],
) -> Result<Vec<ObjectFile<'static>>, Fail> {
    let mut files = Vec::new(alloc);
    for source in sources {
        files.push(object_file(alloc, source)?)?;
    }
    Ok(files)
}
