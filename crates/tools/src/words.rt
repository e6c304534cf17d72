// Words for what a sheet numbers: refusals, stops, kinds, causes, partners, events, answers and actions.
use place::action::{ESTABLISHED, INCOMPATIBLE, INITIATE, RELEASE, REQUEST, TERMINATE};
use record::event::{Cause, Event, PartnerEvent};
use record::partner::{Partner, RBC, RIU};
use record::read::{
    HIGHEST_LEVEL, KIND_DROP, KIND_END_ALL, KIND_HOLE, KIND_LEVEL, KIND_LOSS, KIND_MESSAGE,
    KIND_MISSION, KIND_MODE, KIND_ORDER, KIND_TIMEOUT, KIND_UP,
};
use record::stop::Stop;
use std::fmt;
use std::fmt::{Display, Formatter};
use unit::answer::Action;
use wire::refusal::{ACCEPTED, Refusal};

// Numbers of one NID_C, and versions of one X.
const NUMBERS_OF_NID_C: u32 = 16_384;

const VERSIONS_OF_X: u8 = 16;

// Why an event record is refused.
pub(crate) fn reason(code: u8) -> &'static str {
    match Refusal::try_from(code) {
        Ok(Refusal::OutOfRange) => "a field is outside its range",
        Ok(Refusal::NotInForce) => "the order's cause is not in force",
        Ok(Refusal::HasPlace) => "the partner has a place already",
        Ok(Refusal::HasNone) => "the partner has no place",
        Ok(Refusal::NotTaken) => "the phase or the hole mark does not take this event",
        Ok(Refusal::AllTaken) => "all places are taken",
        Ok(Refusal::CallFromRiu) => "a call from an RIU",
        Ok(Refusal::NoneKnown) => "no RBC is known yet",
        _ => "a number that no event record gets",
    }
}

// The answer to an event record: accepted, or the refusal with its number.
#[derive(Clone, Copy)]
pub(crate) struct Answered(pub(crate) u8);

impl Display for Answered {
    fn fmt<W: fmt::Write>(&self, f: &mut Formatter<W>) -> fmt::Result {
        let code = self.0;
        if code == ACCEPTED {
            return write!(f, "answer: accepted");
        }
        let reason = reason(code);
        write!(f, "answer: refused with {code}: {reason}")
    }
}

// The line of a refusal of a whole sheet or log, with the name of what is too long where it is for that.
#[derive(Clone, Copy)]
pub(crate) struct RefusalLine(pub(crate) u8, pub(crate) &'static str);

impl Display for RefusalLine {
    fn fmt<W: fmt::Write>(&self, f: &mut Formatter<W>) -> fmt::Result {
        let RefusalLine(code, whole) = *self;
        write!(f, "refused with {code}")?;
        match Refusal::try_from(code) {
            Ok(Refusal::BadLimits) => writeln!(
                f,
                ": no box starts so: X is 0 to 7, the lowest not over the highest, and tries are 1 to 9"
            ),
            Ok(Refusal::LogTooLong) => writeln!(f, ": {whole} has more than 1048576 bytes"),
            Ok(Refusal::NoRoom) => writeln!(f, ": the room is too small"),
            _ => writeln!(f),
        }
    }
}

// Why a log ends where it does.
pub(crate) fn stop_name(stop: u8) -> &'static str {
    match Stop::try_from(stop) {
        Ok(Stop::NothingLeft) => "nothing left",
        Ok(Stop::RecordShort) => "fewer bytes than the kind's length",
        Ok(Stop::KindUnknown) => "kind unknown",
        _ => "a number that no stop has",
    }
}

// The kind of an event record whose fields are not told.
pub(crate) fn kind_name(kind: u8) -> &'static str {
    match kind {
        KIND_LEVEL => "level",
        KIND_MISSION => "mission",
        KIND_MODE => "mode change",
        KIND_HOLE => "hole",
        KIND_ORDER => "order",
        KIND_DROP => "drop",
        KIND_END_ALL => "end all",
        KIND_UP => "connection up",
        KIND_LOSS => "connection lost",
        KIND_TIMEOUT => "timeout",
        KIND_MESSAGE => "message",
        _ => "unknown kind",
    }
}

fn number_of(partner: Partner) -> u32 {
    u32::from_be_bytes([0, partner.high, partner.middle, partner.low])
}

// A partner by its type and its whole number: RBC 5.
#[derive(Clone, Copy)]
pub(crate) struct Name(pub(crate) Partner);

impl Display for Name {
    fn fmt<W: fmt::Write>(&self, f: &mut Formatter<W>) -> fmt::Result {
        let number = number_of(self.0);
        match self.0.kind {
            RBC => write!(f, "RBC {number}"),
            RIU => write!(f, "RIU {number}"),
            kind => write!(f, "type {kind}, number {number}"),
        }
    }
}

// A partner as people say it: RBC 5 (NID_C 0, NID_RBC 5).
#[derive(Clone, Copy)]
pub(crate) struct Whom(pub(crate) Partner);

impl Display for Whom {
    fn fmt<W: fmt::Write>(&self, f: &mut Formatter<W>) -> fmt::Result {
        let name = Name(self.0);
        let number = number_of(self.0);
        let country = number / NUMBERS_OF_NID_C;
        let centre = number % NUMBERS_OF_NID_C;
        write!(f, "{name} (NID_C {country}, NID_RBC {centre})")
    }
}

// The partner of an order, which may be the last known RBC.
#[derive(Clone, Copy)]
struct Ordered(Partner);

impl Display for Ordered {
    fn fmt<W: fmt::Write>(&self, f: &mut Formatter<W>) -> fmt::Result {
        if self.0.is_reserved() {
            return write!(f, "the last known RBC");
        }
        write!(f, "{}", Whom(self.0))
    }
}

fn cause_name(cause: Cause) -> &'static str {
    match cause {
        Cause::StartOfMission => "start of mission",
        Cause::Trackside => "trackside",
        Cause::ModeChange => "mode change",
        Cause::ManualLevel => "manual level",
        Cause::HoleEnd => "hole end",
    }
}

// The level, of which the highest is NTC.
#[derive(Clone, Copy)]
pub(crate) struct Level(pub(crate) u64);

impl Display for Level {
    fn fmt<W: fmt::Write>(&self, f: &mut Formatter<W>) -> fmt::Result {
        let level = self.0;
        if level == u64::from(HIGHEST_LEVEL) {
            return write!(f, "level NTC");
        }
        write!(f, "level {level}")
    }
}

// How far a mission is.
pub(crate) fn mission_name(mission: u64) -> &'static str {
    match mission {
        0 => "mission ended",
        1 => "mission starting",
        _ => "mission under way",
    }
}

// What happened with a partner.
#[derive(Clone, Copy)]
struct Happened(Partner, PartnerEvent);

impl Display for Happened {
    fn fmt<W: fmt::Write>(&self, f: &mut Formatter<W>) -> fmt::Result {
        let whom = Whom(self.0);
        match self.1 {
            PartnerEvent::Drop => write!(f, "drop {whom}"),
            PartnerEvent::Up => write!(f, "connection up to {whom}"),
            PartnerEvent::Loss => write!(f, "connection lost to {whom}"),
            PartnerEvent::Timeout => write!(f, "timeout of {whom}"),
            PartnerEvent::Version(version) => {
                let x = version / VERSIONS_OF_X;
                let y = version % VERSIONS_OF_X;
                write!(f, "message 32 from {whom}, version {x}.{y}")
            }
            PartnerEvent::Ended => write!(f, "message 39 from {whom}"),
        }
    }
}

// What an event says. Why all ends, it does not say: that stands in the first byte of the record's body.
#[derive(Clone, Copy)]
pub(crate) struct Said(pub(crate) Event, pub(crate) u8);

impl Display for Said {
    fn fmt<W: fmt::Write>(&self, f: &mut Formatter<W>) -> fmt::Result {
        match self.0 {
            Event::Level { level, manual } => {
                let by = if manual { ", manual" } else { "" };
                let level = Level(level);
                write!(f, "{level}{by}")
            }
            Event::Mission { mission } => write!(f, "{}", mission_name(mission)),
            Event::Mode => write!(f, "mode change"),
            Event::Hole { entered: true } => write!(f, "hole entered"),
            Event::Hole { entered: false } => write!(f, "hole left"),
            Event::Order {
                partner,
                accepting,
                cause,
            } => {
                let whom = Ordered(partner);
                let answer = if accepting {
                    "accepting"
                } else {
                    "not accepting"
                };
                let cause = cause_name(cause);
                write!(f, "order to {whom}, {answer}, {cause}")
            }
            Event::EndAll if self.1 == 1 => write!(f, "end all, error"),
            Event::EndAll => write!(f, "end all, desk closed"),
            Event::Call { partner } => write!(f, "message 38 from {}", Whom(partner)),
            Event::Named { partner, event } => write!(f, "{}", Happened(partner, event)),
        }
    }
}

// Whether this is the number of an action.
pub(crate) fn is_action(number: u8) -> bool {
    matches!(
        number,
        REQUEST | RELEASE | INCOMPATIBLE | INITIATE | TERMINATE | ESTABLISHED
    )
}

// What an action of this number sends, up to its partner.
pub(crate) fn sent_name(number: u8) -> &'static str {
    match number {
        REQUEST => "request connection to",
        RELEASE => "release",
        INCOMPATIBLE => "no compatible version to",
        INITIATE => "initiate to",
        TERMINATE => "terminate to",
        ESTABLISHED => "established to",
        _ => "an action that no step has, to",
    }
}

// An action: its number, what is sent, and to whom.
#[derive(Clone, Copy)]
pub(crate) struct Sent(pub(crate) Action);

impl Display for Sent {
    fn fmt<W: fmt::Write>(&self, f: &mut Formatter<W>) -> fmt::Result {
        let Action { number, partner } = self.0;
        let sent = sent_name(number);
        let whom = Whom(partner);
        write!(f, "action {number}: {sent} {whom}")
    }
}
