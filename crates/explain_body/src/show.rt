// A record, an answer and the places, each in words.
use crate::words::{
    action_words, cause_words, direction_words, kind_words, mission_words, phase_words,
    refusal_words,
};
use place::place::{Holding, Place};
use record::event::{Event, PartnerEvent};
use record::partner::{Partner, RBC};
use std::{fmt, io};
use unit::answer::{Action, Answer};
use unit::last::Last;
use unit::search::Standing;
use unit::state::{PLACES, State};
use wire::byte::byte_at;
use wire::refusal::{ACCEPTED, Refusal};

// Versions of one X.
const VERSIONS_OF_X: u8 = 16;

// The level that is NTC.
const LEVEL_NTC: u64 = 4;

// A partner by its type and number.
#[derive(Clone, Copy)]
struct Named(Partner);

impl fmt::Display for Named {
    fn fmt<W: fmt::Write>(&self, f: &mut fmt::Formatter<W>) -> fmt::Result {
        let partner = self.0;
        let kind = if partner.is_rbc() { "RBC" } else { "RIU" };
        let number = u32::from_be_bytes([0, partner.high, partner.middle, partner.low]);
        write!(f, "{kind} {number}")
    }
}

// The partner of an order, which may be the last known RBC.
#[derive(Clone, Copy)]
struct Ordered(Partner);

impl fmt::Display for Ordered {
    fn fmt<W: fmt::Write>(&self, f: &mut fmt::Formatter<W>) -> fmt::Result {
        if self.0.is_reserved() {
            write!(f, "the last known RBC")
        } else {
            write!(f, "{}", Named(self.0))
        }
    }
}

// A level, and whether it was changed by hand.
#[derive(Clone, Copy)]
pub(crate) struct Level {
    pub(crate) level: u64,
    pub(crate) manual: bool,
}

impl fmt::Display for Level {
    fn fmt<W: fmt::Write>(&self, f: &mut fmt::Formatter<W>) -> fmt::Result {
        let manual = if self.manual { ", manual" } else { "" };
        if self.level == LEVEL_NTC {
            write!(f, "level NTC{manual}")
        } else {
            write!(f, "level {}{manual}", self.level)
        }
    }
}

// A version, by its X and its Y.
#[derive(Clone, Copy)]
struct Version(u8);

impl fmt::Display for Version {
    fn fmt<W: fmt::Write>(&self, f: &mut fmt::Formatter<W>) -> fmt::Result {
        write!(f, "{}.{}", self.0 / VERSIONS_OF_X, self.0 % VERSIONS_OF_X)
    }
}

// An event that names its partner.
#[derive(Clone, Copy)]
struct Told {
    partner: Partner,
    event: PartnerEvent,
}

impl fmt::Display for Told {
    fn fmt<W: fmt::Write>(&self, f: &mut fmt::Formatter<W>) -> fmt::Result {
        let partner = Named(self.partner);
        match self.event {
            PartnerEvent::Drop => write!(f, "drop {partner}"),
            PartnerEvent::Up => write!(f, "connection up to {partner}"),
            PartnerEvent::Loss => write!(f, "connection lost to {partner}"),
            PartnerEvent::Timeout => write!(f, "timeout of {partner}"),
            PartnerEvent::Version(version) => {
                write!(f, "message 32 from {partner}, version {}", Version(version))
            }
            PartnerEvent::Ended => write!(f, "message 39 from {partner}"),
        }
    }
}

// An event, and the first byte of its record's body: why all ends, an event does not say.
#[derive(Clone, Copy)]
struct Said {
    event: Event,
    first: u8,
}

impl fmt::Display for Said {
    fn fmt<W: fmt::Write>(&self, f: &mut fmt::Formatter<W>) -> fmt::Result {
        match self.event {
            Event::Level { level, manual } => write!(f, "{}", Level { level, manual }),
            Event::Mission { mission } => write!(f, "mission {}", mission_words(mission)),
            Event::Mode => write!(f, "mode change"),
            Event::Hole { entered } => {
                write!(f, "hole {}", if entered { "entered" } else { "left" })
            }
            Event::Order {
                partner,
                accepting,
                cause,
            } => {
                let not = if accepting { "" } else { "not " };
                let partner = Ordered(partner);
                write!(
                    f,
                    "order to {partner}, {not}accepting, {}",
                    cause_words(cause)
                )
            }
            Event::EndAll => {
                let error = self.first == 1;
                write!(
                    f,
                    "end all, {}",
                    if error { "error" } else { "desk closed" }
                )
            }
            Event::Call { partner } => write!(f, "message 38 from {}", Named(partner)),
            Event::Named { partner, event } => write!(f, "{}", Told { partner, event }),
        }
    }
}

// A record that was taken and is not applied yet: its number, its offset, its bytes, and what they mean.
#[derive(Clone, Copy)]
pub(crate) struct Record<'a> {
    pub(crate) ordinal: u64,
    pub(crate) at: usize,
    pub(crate) bytes: &'a [u8],
    pub(crate) reading: Result<Event, Refusal>,
}

impl<'a> Record<'a> {
    // The number, the offset and the event; or, where a field is outside its range, the kind.
    pub(crate) fn show(&self, out: &impl Print) -> io::Result<()> {
        print!(out; "{} at {}: ", self.ordinal, self.at)?;
        match self.reading {
            Ok(event) => {
                let first = byte_at(self.bytes, 1);
                print!(out; "{}", Said { event, first })
            }
            Err(_) => print!(out; "{}", kind_words(byte_at(self.bytes, 0))),
        }
    }
}

// An action, and the partner that it is for.
#[derive(Clone, Copy)]
struct Sent(Action);

impl fmt::Display for Sent {
    fn fmt<W: fmt::Write>(&self, f: &mut fmt::Formatter<W>) -> fmt::Result {
        let partner = Named(self.0.partner);
        write!(f, "{} {partner}", action_words(self.0.number))
    }
}

// The place and the phase of the partner, where the answer says them.
fn show_standing(out: &impl Print, standing: Standing) -> io::Result<()> {
    let Standing { place, phase } = standing;
    if place < PLACES {
        print!(out; " (place {place}, {})", phase_words(phase))?;
    }
    Ok(())
}

// What the box answered: taken, with its actions, or refused.
pub(crate) fn show_answer(out: &impl Print, answer: Answer) -> io::Result<()> {
    let code = answer.code;
    if code == ACCEPTED {
        print!(out; " - taken")?;
        let actions = answer.actions;
        for action in actions.items.iter().take(actions.count) {
            print!(out; "; {}", Sent(*action))?;
        }
    } else {
        print!(out; " - refused with {code}: {}", refusal_words(code))?;
        show_standing(out, answer.standing)?;
    }
    println!(out; "")
}

// What a place holds.
#[derive(Clone, Copy)]
struct Held(Place);

impl fmt::Display for Held {
    fn fmt<W: fmt::Write>(&self, f: &mut fmt::Formatter<W>) -> fmt::Result {
        match self.0.holding {
            Holding::Free => write!(f, "free"),
            Holding::Held {
                direction,
                phase,
                partner,
            } => {
                write!(f, "{}, {}", Named(partner), direction_words(direction))?;
                write!(
                    f,
                    ", {}, tries {}",
                    phase_words(phase.number()),
                    phase.tries()
                )
            }
        }
    }
}

// The last known RBC, or that there is none.
pub(crate) fn show_last(out: &impl Print, last: Last) -> io::Result<()> {
    match last {
        Last::Unknown => println!(out; "last known: none"),
        Last::Known { high, middle, low } => {
            let partner = Partner {
                kind: RBC,
                high,
                middle,
                low,
            };
            println!(out; "last known: {}", Named(partner))
        }
    }
}

// The places as they stand.
pub(crate) fn show_places(out: &impl Print, state: State) -> io::Result<()> {
    for (i, place) in state.places.iter().enumerate() {
        println!(out; "place {i}: {}", Held(*place))?;
    }
    Ok(())
}
