// Files by names that are bytes.
use std::fs::{Files, OpenOptions};
use std::{fs, io, str};

// The text of a name; one that is no text names no file that the library can open.
fn text_of(name: &[u8]) -> io::Result<&str> {
    str::from_utf8(name).map_err(|_| io::Error::from(io::ErrorKind::InvalidFilename))
}

// Opens a file to read it.
pub fn open_read<R: Files>(rt: &R, name: &[u8]) -> io::Result<R::File> {
    fs::open(rt, text_of(name)?)
}

// Opens a file that is there to read and to write it.
pub fn open_update<R: Files>(rt: &R, name: &[u8]) -> io::Result<R::File> {
    OpenOptions::new()
        .read(true)
        .write(true)
        .open(rt, text_of(name)?)
}

// Opens what is there to write to it, as a device or another descriptor.
pub fn open_write<R: Files>(rt: &R, name: &[u8]) -> io::Result<R::File> {
    OpenOptions::new().write(true).open(rt, text_of(name)?)
}

// Makes a new file and opens it to write it; a name that is taken is an error.
pub fn create_new<R: Files>(rt: &R, name: &[u8]) -> io::Result<R::File> {
    OpenOptions::new()
        .write(true)
        .create_new(true)
        .open(rt, text_of(name)?)
}

// Removes a file.
pub fn remove<R: Files>(rt: &R, name: &[u8]) -> io::Result<()> {
    fs::remove_file(rt, text_of(name)?)
}

// Gives a file another name, in the place of a file that has it.
pub fn rename<R: Files>(rt: &R, from: &[u8], to: &[u8]) -> io::Result<()> {
    fs::rename(rt, text_of(from)?, text_of(to)?)
}
