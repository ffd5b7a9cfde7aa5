//! Files as a source.
ghost use Rattle.std.specs.Prelude.{◌≡◌, ◌↔◌, ◌≤◌, ◌-◌, ◌++◌, IfOk, OnOk, IfSome, length, take, vec_len};
ghost use Rattle.std.specs.Io.KnownBytes.{Consumes};
ghost use Rattle.program.specs.ChecksAll.{input_path};
ghost use Rattle.program.specs.Opens.{IsInput};

use crate::source::{ReadFault, Reason, Source};
use crate::walking::files_of;
use std::alloc::{AllocError, Global};
use std::io::{ErrorKind, Read};
use std::rt::Files;
use std::{fs, io};

/// The files of the system, and standard input.
#[derive_where(Clone, Copy; I)]
pub struct Disk<'a, R, I> {
    pub rt: &'a R,
    /// Standard input, which the process has: a handle without a buffer, since a stack may be small.
    pub input: I,
}

/// What a path stands for, for it to be read.
#[derive(Drop)]
pub enum Opened<F, I> {
    /// A file that was opened.
    File(F),
    /// Standard input: it is read on from where it stands.
    Input(I),
}

impl<F: Read, I: Read> Read for Opened<F, I> {
    ghost use Rattle.program.specs.Opens.{opened_remaining};

    ghost remaining = { opened_remaining F.remaining I.remaining };

    fn read(&mut self, buf: &mut [u8]) -> io::Result<usize> {
        match self {
            Opened::File(file) => file.read(buf),
            Opened::Input(input) => input.read(buf),
        }
    }
}

/// Opens a file. To open the path of standard input would be to open anew what it is: that fails for a socket, and where
/// the process has not the right to, and a file would be read from its beginning.
fn open_path<R: Files, I: Read + Copy>(
    rt: &R,
    input: I,
    path: &str,
) -> io::Result<Opened<R::File, I>>
    ensures { IfOk result (λ opened. IsInput opened ↔ path.now ≡ input_path) }
{
    if path == "/dev/stdin" {
        return Ok(Opened::Input(input));
    }
    let file = fs::open(rt, path)?;
    Ok(Opened::File(file))
}

impl<R: Files + AllocGlobal + Clone + Drop, I: Read + Copy> Source for Disk<'_, R, I> {
    fn read(&mut self, alloc: Global, path: &str, most: usize) -> Result<Vec<u8>, ReadFault> {
        let expected = fs::metadata(self.rt, path).map_or(0, |data| data.len());
        let mut opened = self.open(path)?;
        read_up_to(&mut opened, alloc, expected, most)
    }

    type File = Opened<R::File, I>;

    fn open(&mut self, path: &str) -> Result<Opened<R::File, I>, ReadFault> {
        open_path(self.rt, self.input, path).map_err(fault_of)
    }

    fn list(&mut self, alloc: Global, path: &str) -> Result<Vec<String>, AllocError> {
        files_of(self.rt, alloc, path)
    }
}

/// Why a read failed.
fn fault_of(error: io::Error) -> ReadFault {
    let reason = match error.kind() {
        ErrorKind::OutOfMemory => return ReadFault::Memory,
        ErrorKind::NotFound => Reason::Missing,
        ErrorKind::IsADirectory => Reason::Folder,
        ErrorKind::PermissionDenied => Reason::Denied,
        ErrorKind::FilesystemLoop => Reason::Links,
        ErrorKind::NotADirectory => Reason::NoFolder,
        ErrorKind::InvalidFilename | ErrorKind::InvalidInput => Reason::BadName,
        _ => Reason::Failed,
    };
    ReadFault::Unreadable(reason)
}

/// One read into `buffer`: how many bytes it gave, none where it was interrupted.
fn read_once<F: Read>(file: &mut F, buffer: &mut [u8]) -> io::Result<usize>
    ensures same { length buffer.new ≡ length buffer.old }
    ensures fits { IfOk result (λ count. count ≤ length buffer.new) }
    ensures given { IfOk result (λ count. Consumes (F.remaining file.old) (F.remaining file.new) (take count buffer.new)) }
{
    match file.read(buffer) {
        Err(error) if error.kind() == ErrorKind::Interrupted => Ok(0),
        read => read,
    }
}

/// Reads on behind the bytes that are there, up to `most` of all.
fn read_on<F: Read>(file: &mut F, bytes: &mut Vec<u8>, most: usize) -> io::Result<()>
    requires { vec_len bytes.old ≤ most }
    ensures known { OnOk result (IfSome (F.remaining file.old)
        (λ rest. bytes.new.items ≡ bytes.old.items ++ take (most - length bytes.old.items) rest)) }
{
    let room = most - bytes.len();
    file.take(room as u64).read_to_end(bytes)?;
    Ok(())
}

/// Reads up to `most` bytes: the first read fills what `bytes` has, of which nothing else stays.
fn read_whole<F: Read>(file: &mut F, bytes: &mut Vec<u8>, most: usize) -> io::Result<()>
    requires { vec_len bytes.old ≤ most }
    ensures most { OnOk result (vec_len bytes.new ≤ most) }
    ensures known { OnOk result (IfSome (F.remaining file.old) (λ held. bytes.new.items ≡ take most held)) }
{
    let count = read_once(file, bytes.as_mut_slice())?;
    bytes.truncate(count);
    read_on(file, bytes, most)?;
    bytes.truncate(most);
    Ok(())
}

/// What a reader has left, `most` bytes of it where there is more. Where it has as many as expected, or fewer, room is made
/// once, and one read fills it: for a byte more, since the end is found by a read that gives nothing.
pub fn read_up_to<F: Read>(
    file: &mut F,
    alloc: Global,
    expected: u64,
    most: usize,
) -> Result<Vec<u8>, ReadFault>
    ensures most { IfOk result (λ bytes. vec_len bytes ≤ most) }
    ensures known { IfOk result (λ bytes. IfSome (F.remaining file.old) (λ held. bytes.items ≡ take most held)) }
{
    let room = expected.saturating_add(1).min(most as u64) as usize;
    let mut bytes = vec![in alloc; 0_u8; room].map_err(|_| ReadFault::Memory)?;
    read_whole(file, &mut bytes, most).map_err(fault_of)?;
    Ok(bytes)
}
