// The writer: texts put into a lent buffer one behind the other, as far as they fit; and what many texts are made of: counts, bytes in hex,
// lists with commas.
ghost use Rattle.std.specs.Iterator.{IsFinite};

use std::fmt;
use std::fmt::{Display, Formatter};
use std::io::{Cursor, Write};

// Room for every text that is told here.
pub const TEXT_ROOM: usize = 4096;

// What was told: how long the text is, and whether it says that the thing is as it must be, or is found.
#[derive(Clone, Copy)]
pub struct Told {
    pub length: usize,
    pub accepted: bool,
}

// Puts these bytes at an offset of a buffer, as many as fit, and answers the offset behind them.
pub fn put(out: &mut [u8], at: usize, words: &[u8]) -> usize {
    let mut page = Cursor::new(out);
    page.set_position(at as u64);
    let _ = page.write(words);
    page.position() as usize
}

// Room for the pieces of a line, which are gathered before they are put: the library's way from a lent buffer to a `Display` takes a
// hundred instructions for each piece.
const LINE_ROOM: usize = 1024;

// The pieces of a line while they come.
#[derive(Clone, Copy)]
struct Gathering {
    bytes: [u8; LINE_ROOM],
    used: usize,
}

impl fmt::Write for Gathering {
    // A piece that there is no room for is not taken.
    fn write_str(&mut self, piece: &str) -> fmt::Result {
        let bytes = piece.as_bytes();
        let n = bytes.len();
        let Some(room) = self
            .bytes
            .get_mut(self.used..)
            .and_then(|rest| rest.get_mut(..n))
        else {
            return Err(fmt::Error);
        };
        room.copy_from_slice(bytes);
        self.used = self.used.wrapping_add(n);
        Ok(())
    }
}

// Puts a text at an offset of a buffer piece by piece, as far as it fits, and answers the offset behind it.
fn put_pieces<T: Display>(out: &mut [u8], at: usize, text: &T) -> usize {
    let mut page = Cursor::new(out);
    page.set_position(at as u64);
    let _ = write!(page, "{text}");
    page.position() as usize
}

// Puts a text at an offset of a buffer, as far as it fits, and answers the offset behind it.
pub(crate) fn put_text<T: Display + Drop>(out: &mut [u8], at: usize, text: T) -> usize {
    let mut gathered = Gathering {
        bytes: [0; LINE_ROOM],
        used: 0,
    };
    if fmt::Write::write(&mut gathered, &text).is_err() {
        return put_pieces(out, at, &text);
    }
    put(
        out,
        at,
        gathered
            .bytes
            .get(..gathered.used)
            .unwrap_or(&gathered.bytes),
    )
}

// Puts a number in decimal, and answers the offset behind it.
pub fn put_number(out: &mut [u8], at: usize, n: usize) -> usize {
    put_text(out, at, n)
}

// A number and the word for what is counted, for one and for more of it.
#[derive(Clone, Copy)]
pub(crate) struct Count(
    pub(crate) usize,
    pub(crate) &'static str,
    pub(crate) &'static str,
);

impl Display for Count {
    fn fmt<W: fmt::Write>(&self, f: &mut Formatter<W>) -> fmt::Result {
        let Count(n, one, more) = *self;
        let noun = if n == 1 { one } else { more };
        write!(f, "{n} {noun}")
    }
}

// Bytes in hex, a space before each.
#[derive(Clone, Copy)]
pub(crate) struct Hex<'a>(pub(crate) &'a [u8]);

impl Display for Hex<'_> {
    fn fmt<W: fmt::Write>(&self, f: &mut Formatter<W>) -> fmt::Result {
        for byte in self.0 {
            write!(f, " {byte:02X}")?;
        }
        Ok(())
    }
}

// The items of a list with commas between them, or the word for a list of none.
pub(crate) fn write_list<W: fmt::Write, I: Iterator + Drop>(
    f: &mut Formatter<W>,
    items: I,
    none: &str,
) -> fmt::Result
where
    I::Item: Display + Drop,
    requires can { I.can_next items }
    requires ends { IsFinite (I.remaining items) }
{
    let mut is_empty = true;
    for item in items {
        if !is_empty {
            write!(f, ", ")?;
        }
        write!(f, "{item}")?;
        is_empty = false;
    }
    if is_empty {
        return write!(f, "{none}");
    }
    Ok(())
}
