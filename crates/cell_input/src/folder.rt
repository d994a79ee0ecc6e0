//! The object files of a folder, and the text of one file beside them, within limits.

ghost use Rattle.std.specs.Prelude.{◌≡◌, ◌≢◌, ◌≤◌, ◌+◌, true, Err, map, length, IfOk, IsErrOf, Contains, All, string_bytes};
ghost use Rattle.cell_io.specs.Causes.{HasCause};
ghost use Rattle.cell_io.specs.Files.{names_in, bytes_in, folder};
ghost use Rattle.cell_io.specs.Within.{IfTold, Gives};
ghost use Rattle.cell_num.specs.Limits.{max_all_bytes, max_file_bytes};
ghost use Rattle.cell_input.specs.Objects.{AreObjectFiles, AreObjects, objects_of};
ghost use Rattle.cell_input.specs.Taking.{listing, objects_among, bytes_after, file_after, files_after, folder_from};

use crate::object_name::is_object_name;
use cell_io::{Host, Stop, is_listed, list_within, read_within};
use cell_num::{Listed, MAX_ALL_BYTES, MAX_FILE_BYTES, MAX_FILES, MAX_NAMES, Name, Shared};
use cell_world::File;
use std::alloc::{AllocError, Global};
use std::collections::BTreeSet;

/// What is answered where the file beside the object files isn't there, or where there is too much.
#[derive(Clone, Copy)]
pub struct Refusals<R> {
    pub absent: R,
    pub names: R,
    pub files: R,
    pub file_bytes: R,
    pub all_bytes: R,
    /// Of the file beside.
    pub text_bytes: R,
}

/// The file beside the object files, and how many bytes it may have.
#[derive(Clone, Copy)]
pub struct Beside<'a> {
    pub name: &'a str,
    pub limit: u32,
}

/// The bytes of the file beside, and the object files in byte order of their names.
#[derive(Drop)]
pub struct Folder {
    pub text: Listed<u8>,
    pub files: Listed<File>,
}

/// Reads the folder's names, then the file beside, then the object files.
pub fn take_folder<H: Host, R: Copy>(
    alloc: Global,
    dir: &str,
    beside: &Beside<'_>,
    why: &Refusals<R>,
    host: &mut H,
) -> Result<Folder, Stop<R>>
    ensures folder { IfTold (H.files host.old) (λ all. Gives (λ folder. folder) result (folder_from why.now beside.now.limit beside.now.name.now (folder dir.now all))) }
    ensures files { IfOk result (λ folder. AreObjectFiles folder.files) }
    ensures short { IfOk result (λ folder. length folder.text ≤ beside.now.limit) }
    ensures files_kept { H.files host.new ≡ H.files host.old }
    ensures cause { HasCause (H.faults host.old) (H.faults host.new) (IsErrOf result Stop.ReadFault) }
{
    let objects = list_objects(alloc, dir, beside.name, why, host)?;
    let text = read_within(alloc, dir, beside.name, beside.limit, why.text_bytes, host)?;
    let files = take_files(alloc, dir, &objects, why, host)?;
    Ok(Folder {
        text: Listed::from_vec(text),
        files,
    })
}

/// Lists the object files of the folder, in which the file of that name has to be.
fn list_objects<H: Host, R: Copy>(
    alloc: Global,
    dir: &str,
    name: &str,
    why: &Refusals<R>,
    host: &mut H,
) -> Result<BTreeSet<String>, Stop<R>>
    ensures objects { IfTold (H.files host.old) (λ all.
        Gives (λ set. map string_bytes set.keys) result (listing why.now name.now (names_in dir.now all))) }
    ensures chosen { IfOk result (λ set. AreObjects (map string_bytes set.keys)) }
    ensures files { H.files host.new ≡ H.files host.old }
    ensures cause { HasCause (H.faults host.old) (H.faults host.new) (IsErrOf result Stop.ReadFault) }
{
    let names = list_within(alloc, dir, MAX_NAMES, why.names, host)?;
    choose_objects(alloc, names.as_slice(), name, why)
}

/// The names of object files among these, in byte order and each once.
fn choose_objects<R: Copy>(
    alloc: Global,
    names: &[String],
    name: &str,
    why: &Refusals<R>,
) -> Result<BTreeSet<String>, Stop<R>>
    ensures objects { Gives (λ set. map string_bytes set.keys) result (objects_among why.now name.now (map string_bytes names.now)) }
    ensures chosen { IfOk result (λ set. AreObjects (map string_bytes set.keys)) }
    ensures no_fault { result ≢ Err Stop.ReadFault }
{
    if !is_listed(name, names) {
        return Err(Stop::Refused(why.absent));
    }
    let objects = object_names(alloc, names)?;
    if objects.len() > MAX_FILES as usize {
        return Err(Stop::Refused(why.files));
    }
    Ok(objects)
}

fn object_names(alloc: Global, names: &[String]) -> Result<BTreeSet<String>, AllocError>
    ensures { IfOk result (λ set. map string_bytes set.keys ≡ objects_of (map string_bytes names.now)) }
{
    let mut objects = BTreeSet::new(alloc);
    for name in names {
        if is_object_name(name.as_bytes()) {
            objects.insert(name.clone()?)?;
        }
    }
    Ok(objects)
}

/// Reads the object files in order.
fn take_files<H: Host, R: Copy>(
    alloc: Global,
    dir: &str,
    objects: &BTreeSet<String>,
    why: &Refusals<R>,
    host: &mut H,
) -> Result<Listed<File>, Stop<R>>
    requires { IfTold (H.files host.old) (λ all. All (Contains (names_in dir.now all)) (map string_bytes objects.now.keys)) }
    ensures taken { IfTold (H.files host.old) (λ all.
        Gives (λ files. files) result (files_after why.now 0 (map string_bytes objects.now.keys) (folder dir.now all))) }
    ensures small { IfOk result (λ files. All (λ f. length f.bytes ≤ max_file_bytes) files) }
    ensures names { IfOk result (λ files. map (λ f. f.name) files ≡ map string_bytes objects.now.keys) }
    ensures files { H.files host.new ≡ H.files host.old }
    ensures cause { HasCause (H.faults host.old) (H.faults host.new) (IsErrOf result Stop.ReadFault) }
{
    let mut files = Vec::new(alloc);
    let mut total: u64 = 0;
    for name in objects.iter() {
        let file = take_file(alloc, dir, name.as_str(), total, why, host)?;
        total += file.bytes.as_slice().len() as u64;
        if files.push(file).is_err() {
            return Err(Stop::OutOfMemory);
        }
    }
    Ok(Listed::from_vec(files))
}

/// Reads an object file, where those before it have `total` bytes.
fn take_file<H: Host, R: Copy>(
    alloc: Global,
    dir: &str,
    name: &str,
    total: u64,
    why: &Refusals<R>,
    host: &mut H,
) -> Result<File, Stop<R>>
    requires listed { IfTold (H.files host.old) (λ all. Contains (names_in dir.now all) name.now) }
    requires small { total ≤ max_all_bytes }
    ensures file { IfTold (H.files host.old) (λ all. Gives (λ file. file) result (file_after why.now total name.now (folder dir.now all))) }
    ensures small { IfOk result (λ file. length file.bytes ≤ max_file_bytes) }
    ensures name { IfOk result (λ file. file.name ≡ name.now) }
    ensures all { IfOk result (λ file. total + length file.bytes ≤ max_all_bytes) }
    ensures files { H.files host.new ≡ H.files host.old }
    ensures cause { HasCause (H.faults host.old) (H.faults host.new) (IsErrOf result Stop.ReadFault) }
{
    let bytes = read_after(alloc, dir, name, total, why, host)?;
    let name = Name::of(alloc, name.as_bytes())?;
    Ok(File { name, bytes })
}

/// Reads the bytes of an object file, where those before it have `total`.
fn read_after<H: Host, R: Copy>(
    alloc: Global,
    dir: &str,
    name: &str,
    total: u64,
    why: &Refusals<R>,
    host: &mut H,
) -> Result<Shared, Stop<R>>
    requires listed { IfTold (H.files host.old) (λ all. Contains (names_in dir.now all) name.now) }
    requires small { total ≤ max_all_bytes }
    ensures bytes { IfTold (H.files host.old) (λ all. Gives (λ bytes. bytes) result (bytes_after why.now total (bytes_in dir.now name.now all))) }
    ensures small { IfOk result (λ bytes. length bytes ≤ max_file_bytes) }
    ensures all { IfOk result (λ bytes. total + length bytes ≤ max_all_bytes) }
    ensures files { H.files host.new ≡ H.files host.old }
    ensures cause { HasCause (H.faults host.old) (H.faults host.new) (IsErrOf result Stop.ReadFault) }
{
    let bytes = read_within(alloc, dir, name, MAX_FILE_BYTES, why.file_bytes, host)?;
    if total + bytes.len() as u64 > MAX_ALL_BYTES {
        return Err(Stop::Refused(why.all_bytes));
    }
    let shared = Shared::from_vec(alloc, bytes)?;
    Ok(shared)
}
