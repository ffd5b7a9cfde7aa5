//! The modules below a folder.
use std::alloc::{AllocError, Global};
use std::fs;
use std::fs::{DirEntry, FileType};
use std::rt::Files;

/// What is found below a folder, and what folders are still to be read.
#[derive(Drop)]
struct FolderWalk {
    files: Vec<String>,
    folders: Vec<String>,
}

/// The files that a path stands for: of a folder those below it whose names end with `.wasm`, in the order of their paths, and
/// each folder that cannot be read whole; of any other path itself. Links to folders are not followed.
pub fn files_of<R: Files + AllocGlobal + Clone + Drop>(
    rt: &R,
    alloc: Global,
    path: &str,
) -> Result<Vec<String>, AllocError> {
    let first = String::from_str(alloc, path)?;
    if !is_folder(rt, path) {
        return Ok(vec![in alloc; first]?);
    }
    let folders = vec![in alloc; first]?;
    let mut walk = FolderWalk {
        files: Vec::new(alloc),
        folders,
    };
    for _ in 0..usize::MAX {
        let Some(folder) = walk.folders.pop() else {
            break;
        };
        read_folder(rt, alloc, folder, &mut walk)?;
    }
    let mut files = walk.files;
    files.sort()?;
    Ok(files)
}

fn is_folder<R: Files>(rt: &R, path: &str) -> bool {
    match fs::metadata(rt, path) {
        Ok(data) => data.is_dir(),
        Err(_) => false,
    }
}

/// What stands in one folder.
fn read_folder<R: Files + AllocGlobal + Clone + Drop>(
    rt: &R,
    alloc: Global,
    folder: String,
    walk: &mut FolderWalk,
) -> Result<(), AllocError> {
    let Ok(entries) = fs::read_dir(rt, folder.as_str()) else {
        walk.files.push(folder)?;
        return Ok(());
    };
    let mut is_whole = true;
    for entry in entries {
        match entry {
            Ok(entry) => note_entry(rt, alloc, &entry, walk)?,
            Err(_) => is_whole = false,
        }
    }
    if !is_whole {
        walk.files.push(folder)?;
    }
    Ok(())
}

/// Whether an entry is to be read: a file, or a link that leads to no FIFO, device or socket. To read one of these may wait for
/// ever, or take what another is to read.
fn is_wanted<R: Files>(rt: &R, kind: FileType, path: &str) -> bool {
    if !kind.is_symlink() {
        return kind.is_file();
    }
    match fs::metadata(rt, path) {
        Ok(data) => data.is_file() || data.is_dir(),
        Err(_) => true,
    }
}

/// Notes a folder, or a file of a module.
fn note_entry<R: Files>(
    rt: &R,
    alloc: Global,
    entry: &DirEntry<R>,
    walk: &mut FolderWalk,
) -> Result<(), AllocError> {
    let path = String::from_str(alloc, entry.path().as_str())?;
    let Ok(kind) = entry.file_type() else {
        walk.files.push(path)?;
        return Ok(());
    };
    if kind.is_dir() {
        walk.folders.push(path)?;
    } else if path.ends_with(".wasm") && is_wanted(rt, kind, path.as_str()) {
        walk.files.push(path)?;
    }
    Ok(())
}
