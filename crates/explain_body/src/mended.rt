// What a rescue mends of a stored image A2, field by field in words with the old and the new bytes; then the mended image in hex.
use crate::stored::print_bytes;
use crate::words::image_refusal_words;
use image::rescue::{Rescued, rescue, size_of};
use std::io;
use std::io::Read;
use streams::read_full;
use wire::refusal::{ACCEPTED, Refusal};

// What was done to the field that begins here.
fn field_words(at: u8) -> &'static str {
    match at {
        3 => "level, set to 0",
        4 => "mission, set to ended",
        5 => "inside a radio hole, cleared",
        6 => "mode change to report, cleared",
        7 => "manual level change, cleared",
        8 => "hole end, cleared",
        9 => "place 0, made free",
        16 => "place 1, made free",
        23 => "place 2, made free",
        30 => "place 3, made free",
        38 => "last known RBC, set to none",
        _ => "no field",
    }
}

// An image before and after its rescue.
#[derive(Clone, Copy)]
struct Pair<'a> {
    old: &'a [u8],
    new: &'a [u8],
}

// So many bytes from here on in hex; none where the image ends before.
fn print_part(out: &impl Print, image: &[u8], at: usize, size: usize) -> io::Result<()> {
    match image.get(at..at.saturating_add(size)) {
        Some(part) => print_bytes(out, part),
        None => Ok(()),
    }
}

impl<'a> Pair<'a> {
    fn show_field(self, out: &impl Print, at: u8) -> io::Result<()> {
        let first = usize::from(at);
        let size = size_of(first);
        print!(out; "{at} {}: ", field_words(at))?;
        print_part(out, self.old, first, size)?;
        print!(out; " becomes ")?;
        print_part(out, self.new, first, size)?;
        println!(out; "")
    }

    fn show(self, out: &impl Print, rescued: Rescued) -> io::Result<()> {
        show_count(out, rescued.count)?;
        for at in rescued.fields.iter().take(rescued.count) {
            self.show_field(out, *at)?;
        }
        print!(out; "A2: ")?;
        print_bytes(out, self.new)?;
        println!(out; "")
    }
}

fn show_count(out: &impl Print, count: usize) -> io::Result<()> {
    match count {
        0 => println!(out; "nothing to mend"),
        1 => println!(out; "1 field mended"),
        _ => println!(out; "{count} fields mended"),
    }
}

fn refusal_words(code: u8) -> &'static str {
    match Refusal::try_from(code) {
        Ok(Refusal::UnknownKind) => "the kind is not A2",
        Ok(Refusal::NotSound) => "the X numbers or n are bad",
        _ => image_refusal_words(code),
    }
}

// Mends an image and shows what was mended, beside a copy of it as it was.
fn mend(out: &impl Print, image: &mut [u8], old: &[u8]) -> io::Result<()> {
    let rescued = rescue(image);
    let code = rescued.code;
    if code == ACCEPTED {
        Pair { old, new: image }.show(out, rescued)
    } else {
        println!(out; "refused with {code}: {}", refusal_words(code))
    }
}

// Mends the image that an input holds, in a copy of it, and shows what was mended. The room is more than the longest image, so that
// a longer one is refused, not cut.
pub fn mend_image(out: &impl Print, input: &mut impl Read) -> io::Result<()> {
    let mut room = [0u8; 64];
    let n = read_full(input, &mut room)?;
    let old = room;
    mend(out, &mut room[0..n], &old[0..n])
}
