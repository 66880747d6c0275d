//! The work on files: an object is put, read, measured and removed.
ghost use Rattle.std.specs.Prelude.{◌≡◌, ◌≤◌, length, IfOk, IfSome};
ghost use Rattle.std.specs.Io.KnownBytes.{Consumes};

use crate::paths::{PathText, below, folder_of};
use crate::trouble::Trouble;
use std::alloc::{AllocError, Global};
use std::fs::{Metadata, OpenFile, OpenOptions};
use std::io::{ErrorKind, Read, Seek, SeekFrom, Write};
use std::os::unix::fs::MetadataExt;
use std::path::PathBuf;
use std::rt::Files;
use std::time::Clock;
use std::{fs, io};
use ts_base::{ByteList, Name};
use ts_store::{Made, SharedBytes};

/// How many names are tried for a temporary file.
const TRIES: u32 = 100;

/// A file that an object is written to before it has its name.
#[derive(Drop)]
struct Temporary<F: Write + OpenFile + Drop> {
    path: PathBuf,
    file: F,
}

/// Puts an object, unless a file of its name is there.
///
/// The bytes are written to a temporary file in the same folder, which is synced and then linked to
/// the name. A link fails where its name is there, on every machine that shares the folder. So the
/// object is there whole or not at all, and none is put over another. Then the temporary name is
/// taken away, and the folder is synced.
pub(crate) fn put<R: Files + Clock>(
    alloc: Global,
    rt: &R,
    root: &PathText,
    name: Name,
    bytes: &[u8],
) -> Result<Made, Trouble> {
    let path = root.file(alloc, name)?;
    let mut temporary = create_temporary(alloc, rt, root, name, path.as_str())?;
    let made = fill_and_link(rt, &mut temporary, path.as_str(), bytes);
    let cleared = remove_if_there(rt, temporary.path.as_str());
    let made = made?;
    cleared?;
    sync_folder(rt, folder_of(path.as_str()))?;
    Ok(made)
}

/// Makes a temporary file beside the file of a name, and the folders that are missing.
///
/// Its name is the file's, the clock's nanoseconds and a number. It is one that no file has, so no
/// other thread, process or machine writes to it, and it is no name of an object.
fn create_temporary<R: Files + Clock>(
    alloc: Global,
    rt: &R,
    root: &PathText,
    name: Name,
    path: &str,
) -> Result<Temporary<R::File>, Trouble> {
    let stamp = rt.since_1970()?.as_nanos();
    let mut options = OpenOptions::new();
    options.write(true).create_new(true);
    for number in 0..TRIES {
        let path = PathBuf::from(format!(in alloc; "{path}.{stamp}.{number}.tmp")?);
        match options.open(rt, path.as_str()) {
            Ok(file) => return Ok(Temporary { path, file }),
            Err(error) => match error.kind() {
                ErrorKind::NotFound => make_folders(alloc, rt, root, name)?,
                ErrorKind::AlreadyExists => {}
                _ => return Err(error.into()),
            },
        }
    }
    Err(Trouble::Device)
}

/// Writes the bytes of an object to a temporary file, syncs it, and links it to the object's name.
fn fill_and_link<R: Files>(
    rt: &R,
    temporary: &mut Temporary<R::File>,
    path: &str,
    bytes: &[u8],
) -> io::Result<Made> {
    temporary.file.write_all(bytes)?;
    temporary.file.sync_all()?;
    match fs::hard_link(rt, temporary.path.as_str(), path) {
        Ok(()) => Ok(Made::New),
        Err(error) if error.kind() == ErrorKind::AlreadyExists => {
            // Over a network an answer may be lost, and the link be asked for again. Where the
            // file has a second name, it was the first time that made it.
            let links = temporary.file.metadata()?.nlink();
            Ok(if links < 2 { Made::Taken } else { Made::New })
        }
        Err(error) => Err(error),
    }
}

/// Makes the folders that the file of a name stands in, the store's own among them.
fn make_folders<R: Files>(
    alloc: Global,
    rt: &R,
    root: &PathText,
    name: Name,
) -> Result<(), Trouble> {
    make_folder(alloc, rt, root.text())?;
    let spelled = name.spell();
    for (slash, _) in spelled.text().match_indices('/') {
        if let Some(folder) = spelled.text().get(..slash) {
            make_folder(alloc, rt, below(alloc, root.text(), folder)?.as_str())?;
        }
    }
    Ok(())
}

/// Makes a folder, unless it is there, and syncs the one above it, so that the new one lasts.
fn make_folder<R: Files>(alloc: Global, rt: &R, path: &str) -> Result<(), Trouble> {
    match fs::create_dir(rt, path) {
        Ok(()) => Ok(sync_folder(rt, below(alloc, path, "..")?.as_str())?),
        Err(error) if error.kind() == ErrorKind::AlreadyExists => Ok(()),
        Err(error) => Err(error.into()),
    }
}

/// Syncs a folder, so that the names in it last.
fn sync_folder<R: Files>(rt: &R, path: &str) -> io::Result<()> {
    fs::open(rt, path)?.sync_all()
}

/// Removes an object, and syncs its folder. One that is not there is no error.
pub(crate) fn remove<R: Files>(
    alloc: Global,
    rt: &R,
    root: &PathText,
    name: Name,
) -> Result<(), Trouble> {
    let path = root.file(alloc, name)?;
    if remove_if_there(rt, path.as_str())? {
        sync_folder(rt, folder_of(path.as_str()))?;
    }
    Ok(())
}

/// Removes a file, and says whether it was there.
fn remove_if_there<R: Files>(rt: &R, path: &str) -> io::Result<bool> {
    match fs::remove_file(rt, path) {
        Ok(()) => Ok(true),
        Err(error) if error.kind() == ErrorKind::NotFound => Ok(false),
        Err(error) => Err(error),
    }
}

/// The length of an object in bytes, or None where it is not there.
pub(crate) fn size<R: Files>(
    alloc: Global,
    rt: &R,
    root: &PathText,
    name: Name,
) -> Result<Option<u64>, Trouble> {
    let path = root.file(alloc, name)?;
    match fs::metadata(rt, path.as_str()) {
        Ok(found) => Ok(Some(length_of(&found)?)),
        Err(error) if error.kind() == ErrorKind::NotFound => Ok(None),
        Err(error) => Err(error.into()),
    }
}

/// The length of a file. What is no file, a folder for one, is no object.
fn length_of(found: &Metadata) -> Result<u64, Trouble> {
    if found.is_file() {
        Ok(found.len())
    } else {
        Err(Trouble::Device)
    }
}

/// The bytes of an object from a place on, at most `len` of them and none past its end, or None
/// where it is not there. No other bytes are read.
pub(crate) fn get<R: Files>(
    alloc: Global,
    rt: &R,
    root: &PathText,
    name: Name,
    from: u64,
    len: u64,
) -> Result<Option<SharedBytes>, Trouble>
    ensures { IfOk result (λ got. IfSome got (λ bytes. length bytes ≤ len)) }
{
    let path = root.file(alloc, name)?;
    let mut file = match fs::open(rt, path.as_str()) {
        Ok(file) => file,
        Err(error) if error.kind() == ErrorKind::NotFound => return Ok(None),
        Err(error) => return Err(error.into()),
    };
    let end = length_of(&file.metadata()?)?;
    let count = len.min(end.saturating_sub(from));
    if count > 0 && from > 0 {
        file.seek(SeekFrom::Start(from))?;
    }
    let bytes = read_front(alloc, &mut file, count as usize)?;
    Ok(Some(SharedBytes::of_list(ByteList::from_vec(bytes))?))
}

/// Reads so many bytes. A file that has fewer left is an error.
fn read_front<F: Read>(alloc: Global, file: &mut F, count: usize) -> Result<Vec<u8>, Trouble>
    ensures count { IfOk result (λ bytes. length bytes.items ≡ count) }
    ensures front { IfOk result (λ bytes. Consumes (F.remaining file.old) (F.remaining file.new) bytes.items) }
{
    let mut bytes = zeros(alloc, count)?;
    file.read_exact(bytes.as_mut_slice())?;
    Ok(bytes)
}

/// So many zero bytes, as room to read to.
pub(crate) fn zeros(alloc: Global, count: usize) -> Result<Vec<u8>, AllocError>
    ensures { IfOk result (λ bytes. length bytes.items ≡ count) }
{
    vec![in alloc; 0u8; count]
}
