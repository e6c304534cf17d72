// The words and numbers of phases, events and answers.
use crate::asked::{CALL, ENDED, Heard, Said, VERSION};
use place::action::NO_ACTION;
use place::phase::Phase;
use place::place::Place;
use std::{fmt, io};

// A phase by its name.
#[derive(Clone, Copy)]
pub(crate) struct Name(pub(crate) Phase);

impl fmt::Display for Name {
    fn fmt<W: fmt::Write>(&self, f: &mut fmt::Formatter<W>) -> fmt::Result {
        f.write_str(match self.0 {
            Phase::Connecting(_) => "Connecting",
            Phase::Contacting(_) => "Contacting",
            Phase::Open => "Open",
            Phase::Lost(_) => "Lost",
            Phase::Ending(_) => "Ending",
        })
    }
}

// Where an arrow begins or ends: a phase, or no place.
#[derive(Clone, Copy)]
pub(crate) struct End(pub(crate) Place);

impl fmt::Display for End {
    fn fmt<W: fmt::Write>(&self, f: &mut fmt::Formatter<W>) -> fmt::Result {
        if self.0.is_free() {
            write!(f, "[*]")
        } else {
            write!(f, "{}", Name(self.0.held_phase()))
        }
    }
}

// The phase of a place with its tries, if it has any, or "free".
#[derive(Clone, Copy)]
struct Left(Place);

impl fmt::Display for Left {
    fn fmt<W: fmt::Write>(&self, f: &mut fmt::Formatter<W>) -> fmt::Result {
        let phase = self.0.held_phase();
        if self.0.is_free() {
            write!(f, "free")
        } else if phase.tries() > 0 {
            write!(f, "{} {}", Name(phase), phase.tries())
        } else {
            write!(f, "{}", Name(phase))
        }
    }
}

impl fmt::Display for Heard {
    fn fmt<W: fmt::Write>(&self, f: &mut fmt::Formatter<W>) -> fmt::Result {
        match self {
            Heard::Drop => write!(f, "drop"),
            Heard::Up => write!(f, "up"),
            Heard::Loss => write!(f, "lost"),
            Heard::Timeout => write!(f, "timeout"),
            Heard::Version(_) => write!(f, "{VERSION}"),
            Heard::Call => write!(f, "{CALL}"),
            Heard::Ended => write!(f, "{ENDED}"),
        }
    }
}

// The actions, each after these words.
pub(crate) fn print_actions(
    out: &impl Print,
    said: Said,
    before: &str,
    between: &str,
) -> io::Result<()> {
    if said.first != NO_ACTION {
        print!(out; "{before}{}", said.first)?;
    }
    if said.second != NO_ACTION {
        print!(out; "{between}{}", said.second)?;
    }
    Ok(())
}

pub(crate) fn print_said(out: &impl Print, said: Said) -> io::Result<()> {
    print_actions(out, said, "", ", ")?;
    if said.first != NO_ACTION {
        print!(out; "; ")?;
    }
    print!(out; "{}", Left(said.place))
}
