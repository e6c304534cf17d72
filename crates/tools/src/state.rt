// A state in words, as `show_image` shows it, but for a partner, which is told with its NID_C and NID_RBC.
use crate::words::{Level, Whom, mission_name};
use image::write::{write_a1, write_a2};
use place::phase::Phase;
use place::place::{Direction, Holding, Place};
use record::partner::{Partner, RBC};
use std::fmt;
use std::fmt::{Display, Formatter};
use unit::last::Last;
use unit::state::{Marks, State};
use wire::refusal::{ACCEPTED, Refusal};

// The marks that are set, or that none is.
#[derive(Clone, Copy)]
struct Set(Marks);

impl Display for Set {
    fn fmt<W: fmt::Write>(&self, f: &mut Formatter<W>) -> fmt::Result {
        let Marks {
            inside,
            mode,
            manual,
            end,
        } = self.0;
        if inside {
            write!(f, " inside a radio hole;")?;
        }
        if mode {
            write!(f, " mode change to report;")?;
        }
        if manual {
            write!(f, " manual level change;")?;
        }
        if end {
            write!(f, " hole end;")?;
        }
        if inside | mode | manual | end {
            return Ok(());
        }
        write!(f, " none")
    }
}

// Who made a connection.
pub(crate) fn direction_name(direction: Direction) -> &'static str {
    match direction {
        Direction::Outgoing => "outgoing",
        Direction::Incoming => "incoming",
    }
}

fn phase_name(phase: Phase) -> &'static str {
    match phase {
        Phase::Connecting(_) => "Connecting",
        Phase::Contacting(_) => "Contacting",
        Phase::Open => "Open",
        Phase::Lost(_) => "Lost",
        Phase::Ending(_) => "Ending",
    }
}

// What a place holds; the tries are those used in its phase, in Open 0.
#[derive(Clone, Copy)]
struct Held(Place);

impl Display for Held {
    fn fmt<W: fmt::Write>(&self, f: &mut Formatter<W>) -> fmt::Result {
        match self.0.holding {
            Holding::Free => write!(f, "free"),
            Holding::Held {
                direction,
                phase,
                partner,
            } => {
                let whom = Whom(partner);
                let direction = direction_name(direction);
                let name = phase_name(phase);
                let tries = phase.tries();
                write!(f, "{whom}, {direction}, {name}, tries {tries}")
            }
        }
    }
}

// The last known RBC.
#[derive(Clone, Copy)]
struct Known(Last);

impl Display for Known {
    fn fmt<W: fmt::Write>(&self, f: &mut Formatter<W>) -> fmt::Result {
        match self.0 {
            Last::Unknown => write!(f, "none"),
            Last::Known { high, middle, low } => {
                let partner = Partner {
                    kind: RBC,
                    high,
                    middle,
                    low,
                };
                write!(f, "{}", Whom(partner))
            }
        }
    }
}

// What a state holds, a line a thing.
#[derive(Clone, Copy)]
struct Content(State);

impl Display for Content {
    fn fmt<W: fmt::Write>(&self, f: &mut Formatter<W>) -> fmt::Result {
        let State {
            limits,
            train,
            marks,
            places,
            last,
        } = self.0;
        writeln!(
            f,
            "X {} to {}, tries {}",
            limits.lowest, limits.highest, limits.tries
        )?;
        writeln!(f, "{}, {}", Level(train.level), mission_name(train.mission))?;
        writeln!(f, "marks:{}", Set(marks))?;
        for (number, place) in places.iter().enumerate() {
            writeln!(f, "place {}: {}", number, Held(*place))?;
        }
        writeln!(f, "last known: {}", Known(last))
    }
}

// An image: its bytes with small letters, one behind the other, as `show_image` shows it, or the refusal of its writing.
#[derive(Clone, Copy)]
struct Image<'a> {
    code: u8,
    bytes: &'a [u8],
}

impl Display for Image<'_> {
    fn fmt<W: fmt::Write>(&self, f: &mut Formatter<W>) -> fmt::Result {
        if self.code == ACCEPTED {
            for byte in self.bytes {
                write!(f, "{byte:02x}")?;
            }
            return Ok(());
        }
        write!(f, "refused with {}", self.code)?;
        if self.code == Refusal::NotInA1.number() {
            write!(f, ": the tries are not 3, or an RBC is known")?;
        }
        Ok(())
    }
}

// A state: what it holds, and the same as A2 and as A1.
#[derive(Clone, Copy)]
pub(crate) struct AllOf(pub(crate) State);

impl Display for AllOf {
    fn fmt<W: fmt::Write>(&self, f: &mut Formatter<W>) -> fmt::Result {
        let mut a2 = [0u8; 42];
        let mut a1 = [0u8; 37];
        let as_a2 = write_a2(self.0, &mut a2);
        let as_a1 = write_a1(self.0, &mut a1);
        let a2 = Image {
            code: as_a2.code,
            bytes: &a2,
        };
        let a1 = Image {
            code: as_a1.code,
            bytes: &a1,
        };
        let content = Content(self.0);
        writeln!(f, "{content}A2: {a2}\nA1: {a1}")
    }
}
