// What a stored image of either kind holds, in words; then the same state as A2 and as A1 in hex, or why it cannot be written so.
use crate::show::{Level, show_last, show_places};
use crate::words::{image_refusal_words, mission_words};
use image::layout::KIND_A1;
use image::read::read_image;
use image::write::{write_a1, write_a2};
use place::limits::Limits;
use std::io::Read;
use std::{fmt, io};
use streams::{print_byte, read_full};
use unit::state::{Marks, State, Train};
use wire::byte::byte_at;
use wire::refusal::ACCEPTED;

fn show_limits(out: &impl Print, limits: Limits) -> io::Result<()> {
    let Limits {
        lowest,
        highest,
        tries,
    } = limits;
    println!(out; "X {lowest} to {highest}, tries {tries}")
}

fn show_train(out: &impl Print, train: Train) -> io::Result<()> {
    let level = Level {
        level: train.level,
        manual: false,
    };
    println!(out; "{level}, mission {}", mission_words(train.mission))
}

// The words of a mark where it is set.
fn mark_words(mark: bool, words: &'static str) -> &'static str {
    if mark { words } else { "" }
}

fn show_marks(out: &impl Print, marks: Marks) -> io::Result<()> {
    let Marks {
        inside,
        mode,
        manual,
        end,
    } = marks;
    print!(out; "marks:{}", mark_words(inside, " inside a radio hole;"))?;
    print!(out; "{}", mark_words(mode, " mode change to report;"))?;
    print!(out; "{}", mark_words(manual, " manual level change;"))?;
    print!(out; "{}", mark_words(end, " hole end;"))?;
    println!(out;
        "{}",
        mark_words(!((inside | mode) | (manual | end)), " none")
    )
}

fn show_state(out: &impl Print, state: State) -> io::Result<()> {
    show_limits(out, state.limits)?;
    show_train(out, state.train)?;
    show_marks(out, state.marks)?;
    show_places(out, state)?;
    show_last(out, state.last)
}

// The refusal of an image.
#[derive(Clone, Copy)]
struct NotRead(u8);

impl fmt::Display for NotRead {
    fn fmt<W: fmt::Write>(&self, f: &mut fmt::Formatter<W>) -> fmt::Result {
        write!(
            f,
            "refused with {}: {}",
            self.0,
            image_refusal_words(self.0)
        )
    }
}

// Bytes in hex.
pub(crate) fn print_bytes(out: &impl Print, bytes: &[u8]) -> io::Result<()> {
    for byte in bytes {
        print_byte(out, *byte)?;
    }
    Ok(())
}

// The bytes of an image in hex, or the refusal of its write.
fn show_written(out: &impl Print, code: u8, bytes: &[u8]) -> io::Result<()> {
    if code == ACCEPTED {
        print_bytes(out, bytes)?;
        println!(out; "")
    } else {
        println!(out; "{}", NotRead(code))
    }
}

fn show_a2(out: &impl Print, state: State) -> io::Result<()> {
    let mut buffer = [0u8; 42];
    let stored = write_a2(state, &mut buffer);
    print!(out; "A2: ")?;
    show_written(out, stored.code, &buffer)
}

fn show_a1(out: &impl Print, state: State) -> io::Result<()> {
    let mut buffer = [0u8; 37];
    let stored = write_a1(state, &mut buffer);
    print!(out; "A1: ")?;
    show_written(out, stored.code, &buffer)
}

fn show_bytes(out: &impl Print, bytes: &[u8]) -> io::Result<()> {
    let started = read_image(bytes);
    let state = started.state;
    if started.code == ACCEPTED {
        let a1 = byte_at(bytes, 0) == KIND_A1;
        println!(out; "image {}", if a1 { "A1" } else { "A2" })?;
        show_state(out, state)?;
        show_a2(out, state)?;
        show_a1(out, state)
    } else {
        println!(out; "{}", NotRead(started.code))
    }
}

// Shows the image that an input holds. The room is more than the longest image, so that a longer one is refused, not cut.
pub fn show_image(out: &impl Print, input: &mut impl Read) -> io::Result<()> {
    let mut room = [0u8; 64];
    let n = read_full(input, &mut room)?;
    show_bytes(out, &room[..n])
}
