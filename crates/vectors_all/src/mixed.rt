// The image of a mixed state, to be held to bytes that were written by hand.
use image::read::read_image;
use image::write::write_a1;
use place::limits::Limits;
use place::phase::Phase;
use place::place::{Direction, Place};
use record::partner::Partner;
use std::io;
use unit::last::Last;
use unit::state::{Marks, State, Train};

fn partner(kind: u8, high: u8, middle: u8, low: u8) -> Partner {
    Partner {
        kind,
        high,
        middle,
        low,
    }
}

fn mixed() -> State {
    let lost = partner(0, 1, 2, 3);
    let infill = partner(1, 0, 0, 2);
    let open = partner(0, 0, 0, 5);
    State {
        limits: Limits {
            lowest: 1,
            highest: 2,
            tries: 3,
        },
        train: Train {
            level: 2,
            mission: 1,
        },
        marks: Marks {
            inside: false,
            mode: true,
            manual: true,
            end: false,
        },
        places: [
            Place::held(Direction::Incoming, Phase::Lost(2), lost),
            Place::free(),
            Place::held(Direction::Outgoing, Phase::Contacting(3), infill),
            Place::held(Direction::Outgoing, Phase::Open, open),
        ],
        last: Last::Unknown,
    }
}

// Prints the image of a mixed state in hex, and the numbers that writing and reading it answer.
pub(crate) fn image_of_mixed<P: Print>(out: &P) -> io::Result<()> {
    let mut buffer = [0u8; 37];
    let stored = write_a1(mixed(), &mut buffer);
    for byte in buffer.iter() {
        print!(out; "{byte:02x} ")?;
    }
    let again = read_image(&buffer);
    println!(out; "{:02x} {:02x} ", stored.code, again.code)
}
