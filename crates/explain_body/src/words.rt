// Words for what the box numbers: refusals, stops, kinds, causes, phases, actions.
use place::action::{ESTABLISHED, INCOMPATIBLE, INITIATE, RELEASE, REQUEST, TERMINATE};
use place::place::Direction;
use record::event::Cause;
use record::read::{
    KIND_DROP, KIND_END_ALL, KIND_HOLE, KIND_LEVEL, KIND_LOSS, KIND_MESSAGE, KIND_MISSION,
    KIND_MODE, KIND_ORDER, KIND_TIMEOUT, KIND_UP,
};
use record::stop::Stop;
use wire::refusal::Refusal;

pub(crate) fn refusal_words(code: u8) -> &'static str {
    match Refusal::try_from(code) {
        Ok(Refusal::WrongLength) => "the record is empty or not of its kind's length",
        Ok(Refusal::UnknownKind) => "the kind is unknown",
        Ok(Refusal::OutOfRange) => "a field is outside its range",
        Ok(Refusal::NotInForce) => "the order's cause is not in force",
        Ok(Refusal::HasPlace) => "the partner has a place already",
        Ok(Refusal::HasNone) => "the partner has no place",
        Ok(Refusal::NotTaken) => "the phase or the hole mark does not take this event",
        Ok(Refusal::AllTaken) => "all places are taken",
        Ok(Refusal::CallFromRiu) => "a call from an RIU",
        Ok(Refusal::NoneKnown) => "no RBC is known yet",
        Ok(Refusal::NotSound) => "the state is not sound",
        Ok(Refusal::LogTooLong) => "the log is longer than 1048576 bytes",
        _ => "a number that no record gets",
    }
}

// Why an image cannot be read or written.
pub(crate) fn image_refusal_words(code: u8) -> &'static str {
    match Refusal::try_from(code) {
        Ok(Refusal::WrongLength) => "the image is empty or not of its kind's length",
        Ok(Refusal::UnknownKind) => "the kind is neither A1 nor A2",
        Ok(Refusal::NotSound) => "the content is not sound",
        Ok(Refusal::NotInA1) => "the tries are not 3, or an RBC is known",
        _ => "a number that no image gets",
    }
}

pub(crate) fn stop_words(stop: Stop) -> &'static str {
    match stop {
        Stop::NothingLeft => "nothing left",
        Stop::BudgetUsed => "the budget is used up",
        Stop::RecordShort => "fewer bytes than the kind's length",
        Stop::KindUnknown => "kind unknown",
    }
}

// The kind of a record whose fields mean no event.
pub(crate) fn kind_words(kind: u8) -> &'static str {
    match kind {
        KIND_LEVEL => "level",
        KIND_MISSION => "mission",
        KIND_MODE => "mode change",
        KIND_HOLE => "hole",
        KIND_ORDER => "order",
        KIND_DROP => "drop",
        KIND_END_ALL => "end all",
        KIND_UP => "connection up",
        KIND_LOSS => "connection lost",
        KIND_TIMEOUT => "timeout",
        KIND_MESSAGE => "message",
        _ => "unknown kind",
    }
}

pub(crate) fn cause_words(cause: Cause) -> &'static str {
    match cause {
        Cause::StartOfMission => "start of mission",
        Cause::Trackside => "trackside",
        Cause::ModeChange => "mode change",
        Cause::ManualLevel => "manual level",
        Cause::HoleEnd => "hole end",
    }
}

pub(crate) fn mission_words(mission: u64) -> &'static str {
    match mission {
        0 => "ended",
        1 => "starting",
        _ => "under way",
    }
}

// The name of the phase with this number.
pub(crate) fn phase_words(phase: u8) -> &'static str {
    match phase {
        1 => "Connecting",
        2 => "Contacting",
        3 => "Open",
        4 => "Lost",
        5 => "Ending",
        _ => "no phase",
    }
}

pub(crate) fn direction_words(direction: Direction) -> &'static str {
    match direction {
        Direction::Outgoing => "outgoing",
        Direction::Incoming => "incoming",
    }
}

// An action up to its partner.
pub(crate) fn action_words(number: u8) -> &'static str {
    match number {
        REQUEST => "request connection to",
        RELEASE => "release",
        INCOMPATIBLE => "no compatible version to",
        INITIATE => "initiate to",
        TERMINATE => "terminate to",
        ESTABLISHED => "established to",
        _ => "an action that no step has to",
    }
}
