// What is done in the folder, step by step.
use bytes::Bytes;
use cool_base::Memory;
use std::alloc::{AllocError, Global};
use std::fs::{self, File, OpenFile};
use std::io::{self, ErrorKind, Read, Write};
use std::rt::Files;

/// How many bytes a file has at most: as many as the body of a message.
pub const FILE_LIMIT: u64 = 67_108_864;

// How many bytes are read at once.
const PIECE: usize = 16_384;

// Why a step was not done.
#[derive(Clone, Copy, Debug, PartialEq, Eq)]
pub(crate) enum Trouble {
    Failed,
    Memory,
}

impl From<io::Error> for Trouble {
    fn from(error: io::Error) -> Trouble {
        if error.kind() == ErrorKind::OutOfMemory {
            Trouble::Memory
        } else {
            Trouble::Failed
        }
    }
}

impl From<AllocError> for Trouble {
    fn from(_: AllocError) -> Trouble {
        Trouble::Memory
    }
}

// The path of a name in the folder.
fn path_of(alloc: Global, folder: &str, name: &str, ending: &str) -> Result<String, AllocError> {
    let mut path = String::from_str(alloc, folder)?;
    path.push('/')?;
    path.push_str(name)?;
    path.push_str(ending)?;
    Ok(path)
}

// How long the plain file at the path is; None where nothing is there.
fn length_at<R: Files>(rt: &R, path: &str) -> Result<Option<u64>, Trouble> {
    match fs::symlink_metadata(rt, path) {
        Ok(found) if found.is_file() => Ok(Some(found.len())),
        Ok(_) => Err(Trouble::Failed),
        Err(error) if error.kind() == ErrorKind::NotFound => Ok(None),
        Err(error) => Err(Trouble::from(error)),
    }
}

/// The content of the file with this name; None where there is none.
pub(crate) fn read_file<R: Files>(
    rt: &R,
    alloc: Global,
    folder: &str,
    name: &str,
) -> Result<Option<Bytes>, Trouble> {
    let path = path_of(alloc, folder, name, "")?;
    let Some(length) = length_at(rt, path.as_str())? else {
        return Ok(None);
    };
    if length > FILE_LIMIT {
        return Err(Trouble::Failed);
    }
    let mut file = File::open(rt, path.as_str())?;
    let mut content = Vec::with_capacity(alloc, length as usize)?;
    read_all(&mut file, &mut content)?;
    match Bytes::from_vec(content) {
        Ok(content) => Ok(Some(content)),
        Err(_) => Err(Trouble::Memory),
    }
}

// Reads all that the file has, up to the limit.
fn read_all<F: Read>(file: &mut F, content: &mut Vec<u8>) -> Result<(), Trouble> {
    let mut room = [0u8; PIECE];
    for _ in 0..u64::MAX {
        let count = file.read(&mut room)?;
        if count == 0 {
            return Ok(());
        }
        content.extend_from_slice(&room[..count])?;
        if content.len() as u64 > FILE_LIMIT {
            return Err(Trouble::Failed);
        }
    }
    Err(Trouble::Failed)
}

/// Replaces the content of the file with this name. The name of what is written beside it is no file id.
pub(crate) fn replace_file<R: Files>(
    rt: &R,
    alloc: Global,
    folder: &str,
    name: &str,
    content: &[u8],
) -> Result<(), Trouble> {
    if content.len() as u64 > FILE_LIMIT {
        return Err(Trouble::Failed);
    }
    let path = path_of(alloc, folder, name, "")?;
    let beside = path_of(alloc, folder, name, ".new")?;
    length_at(rt, path.as_str())?;
    let held = File::open(rt, folder)?;
    write_beside(rt, beside.as_str(), content)?;
    fs::rename(rt, beside.as_str(), path.as_str())?;
    held.sync_all()?;
    Ok(())
}

// Writes a file of its own, and returns when the disk has it.
fn write_beside<R: Files>(rt: &R, path: &str, content: &[u8]) -> io::Result<()> {
    match fs::remove_file(rt, path) {
        Ok(()) => {}
        Err(error) if error.kind() == ErrorKind::NotFound => {}
        Err(error) => return Err(error),
    }
    let mut file = File::create_new(rt, path)?;
    file.write_all(content)?;
    file.sync_all()
}
