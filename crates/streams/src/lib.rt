#![tactic(auto)]
// What the programs ask of the system, over the library's readers, writers and files: an input read up to the room there is, numbers
// printed, files by names that are bytes, the words that a program was started with, and what failed told in a line.
pub mod files;
pub mod words;

ghost use Rattle.std.specs.Prelude.{◌≡◌, ◌<◌, length, take, IfOk};
ghost use Rattle.std.specs.Io.{ReadsAtMost};
ghost use Rattle.std.specs.Io.KnownBytes.{Consumes, IsAtEnd};

use std::io;
use std::io::{Cursor, Read, Write};

// 4,096 zeros, which hold a word or a short text. The clause gives only the length, which lending the array as a slice needs.
pub fn buffer() -> [u8; 4096]
    ensures { 4096 ≡ length result }
{
    [0; 4096]
}

// 65,536 zeros, for what moves much data.
pub fn large_buffer() -> [u8; 65536]
    ensures { 65536 ≡ length result }
{
    [0; 65536]
}

// Reads until the room is full or the input ends, and answers how many bytes stand at the start of the room.
pub fn read_full<R: Read>(input: &mut R, room: &mut [u8]) -> io::Result<usize>
    ensures bound { ReadsAtMost result room.new }
    ensures bytes { IfOk result (λ n. Consumes (R.remaining input.old) (R.remaining input.new) (take n room.new)) }
    ensures end { IfOk result (λ n. n < length room.new → IsAtEnd (R.remaining input.new)) }
{
    let mut done = 0;
    while done < room.len() {
        let n = input.read(&mut room[done..])?;
        if n == 0 {
            break;
        }
        done += n;
    }
    Ok(done)
}

// Prints a number in decimal digits, with no line end.
pub fn print_decimal<P: Print>(out: &P, n: u64) -> io::Result<()> {
    out.print(n)
}

// Prints a number in hexadecimal digits, in lower case, with zeros in front up to eight digits, and no line end.
pub fn print_count<P: Print>(out: &P, n: u64) -> io::Result<()> {
    print!(out; "{n:08x}")
}

// Prints a byte in two hexadecimal digits, in lower case.
pub fn print_byte<P: Print>(out: &P, byte: u8) -> io::Result<()> {
    print!(out; "{byte:02x}")
}

// Writes a line: what failed, as the caller names it, a colon and the system's words for the error, without its number.
pub fn fail<P: Print>(out: &P, what: &[u8], error: io::Error) -> io::Result<()> {
    let mut text = Cursor::new([0u8; 256]);
    let _ = write!(text, "{error}");
    let room = text.into_inner();
    out.write_all(what)?;
    out.write_all(b": ")?;
    out.write_all(words_of(&room))?;
    out.write_all(b"\n")
}

// What the library puts behind the words for an error, before its number.
const NUMBERED: &[u8] = b" (os error ";

// The text of an error up to its number, or to the zeros that follow it.
fn words_of(text: &[u8]) -> &[u8] {
    let told = text.split(|byte| *byte == 0).next().unwrap_or(text);
    let words = told
        .windows(NUMBERED.len())
        .position(|behind| behind == NUMBERED);
    words.and_then(|end| told.get(..end)).unwrap_or(told)
}
