// Reading a file whole, writing a text, and what was made in the place of a file.
use std::fs::File;
use std::io;
use std::io::{ErrorKind, Write};
use std::random::RandomSource;
use streams::files::{create_new, open_read, open_update, remove, rename};
use streams::words::word;
use streams::{buffer, fail, read_full};
use tools::text::{put, put_number};

// The name of standard input or output.
pub(crate) const DASH: &[u8] = b"-";

// Something could not be read or written, which is told.
#[derive(Clone, Copy)]
pub(crate) struct Failed;

// The first bytes of a room.
pub(crate) fn front(room: &[u8], n: usize) -> &[u8] {
    room.get(..n).unwrap_or(room)
}

// Words on standard error. That they cannot be written is told nowhere.
pub(crate) fn complain(rt: &HostRuntime, words: &[u8]) {
    let _ = rt.stderr().write_all(words);
}

// What was reached; that it was not is told in a line on standard error: what failed, and why. That this cannot be written is told nowhere.
pub(crate) fn reached<T>(rt: &HostRuntime, what: &[u8], step: io::Result<T>) -> Result<T, Failed> {
    match step {
        Ok(found) => Ok(found),
        Err(error) => {
            let _ = fail(&rt.stderr(), what, error);
            Err(Failed)
        }
    }
}

// Reads the file of this name, to its end or until the room is full.
fn read_file(rt: &HostRuntime, path: &[u8], room: &mut [u8]) -> io::Result<usize> {
    let mut file = open_read(rt, path)?;
    read_full(&mut file, room)
}

// Reads the file that the word of this number names, to its end or until the room is full; a dash is standard input. Answers how many bytes
// it has.
pub(crate) fn read_named(rt: &HostRuntime, at: usize, room: &mut [u8]) -> Result<usize, Failed> {
    let mut name = buffer();
    let n = word(rt, at, &mut name);
    let path = front(&name, n);
    if path == DASH {
        return reached(rt, b"standard input", read_full(&mut rt.stdin(), room));
    }
    reached(rt, path, read_file(rt, path, room))
}

// Whether a step failed since there is no such file.
fn is_missing(error: &io::Error) -> bool {
    error.kind() == ErrorKind::NotFound
}

// Fails unless a file of this name can be replaced: there is none, or it may be written and is a regular file. What cannot be synchronized,
// as a pipe or the null device, is none.
fn check_replaceable(rt: &HostRuntime, path: &[u8]) -> Result<(), Failed> {
    match open_update(rt, path) {
        Ok(file) => {
            if file.sync_all().is_ok() {
                return Ok(());
            }
            complain(rt, path);
            complain(rt, b": not a regular file\n");
            Err(Failed)
        }
        Err(error) if is_missing(&error) => Ok(()),
        Err(error) => reached(rt, path, Err(error)),
    }
}

// Reads what stands under the name of an output, which the word of this number is, and answers how many bytes it has, or that nothing
// stands there, as under a dash, standard output.
pub(crate) fn read_output(
    rt: &HostRuntime,
    at: usize,
    room: &mut [u8],
) -> Result<Option<usize>, Failed> {
    let mut name = buffer();
    let n = word(rt, at, &mut name);
    let path = front(&name, n);
    if path == DASH {
        return Ok(None);
    }
    check_replaceable(rt, path)?;
    match read_file(rt, path, room) {
        Err(error) if is_missing(&error) => Ok(None),
        step => {
            let bytes = reached(rt, path, step)?;
            Ok(Some(bytes))
        }
    }
}

// The name of a new file beside one of this name, with a number that is drawn; answers how long it is.
fn name_beside(rt: &HostRuntime, path: &[u8], beside: &mut [u8]) -> usize {
    let mut lot = [0u8; 3];
    let _ = rt.fill_bytes(&mut lot);
    let drawn = u32::from_be_bytes([0, lot[0], lot[1], lot[2]]);
    let at = put(beside, 0, path);
    let at = put(beside, at, b".new-");
    put_number(beside, at, drawn as usize)
}

// Writes what was made to a new file that is open, and gives it the other name once all of it is kept.
fn write_and_rename(
    rt: &HostRuntime,
    mut file: File,
    new: &[u8],
    path: &[u8],
    made: &[u8],
) -> Result<(), Failed> {
    reached(rt, path, file.write_all(made))?;
    reached(rt, path, file.sync_all())?;
    reached(rt, path, rename(rt, new, path))
}

// Puts what was made in the place of the file of this name, or makes it; where something fails, that is told, and the file is as it was.
pub(crate) fn replace(rt: &HostRuntime, path: &[u8], made: &[u8]) -> Result<(), Failed> {
    check_replaceable(rt, path)?;
    let mut beside = buffer();
    let n = name_beside(rt, path, &mut beside);
    let new = front(&beside, n);
    let file = reached(rt, path, create_new(rt, new))?;
    let kept = write_and_rename(rt, file, new, path, made);
    if kept.is_err() {
        let _ = remove(rt, new);
    }
    kept
}
