// What is due at an offset of a sheet, and what stands there.
ghost use Rattle.std.specs.Prelude.{◌≡◌, ◌∷◌, map, ◌+◌, ◌≤◌, length, drop};
ghost use Rattle.unit.specs.OnRecords.{action_size};
ghost use Rattle.record.specs.Stops.{stop_number};
ghost use Rattle.judge.specs.Judging.{stopped_as, compared, stands_at, is_right, dues_at};
ghost use Rattle.judge.specs.Buffers.{action_in, sent_actions};

use record::partner::Partner;
use record::stop::Stop;
use record::take::{Front, front_at};
use unit::answer::Action;
use unit::bytes::ACTION_SIZE;

// The kind of an answer, and its bytes.
pub const ANSWER_KIND: u8 = 30;

pub const ANSWER_SIZE: usize = 2;

// What is due: an event record, the answer to one, or one of its actions.
#[derive(Clone, Copy)]
pub enum Due {
    AnEvent,
    TheAnswer(u8),
    TheAction(Action),
}

// What stands where a record is due: the right one (or the sheet's end, where an event is due), a wrong one, a short one, or nothing.
#[derive(Clone, Copy)]
pub enum Finding {
    Right,
    Wrong,
    Short,
    Missing,
}

// A point of a sheet: what stands at this offset, and what is due there.
#[derive(Clone, Copy)]
pub struct Point {
    pub stands: Finding,
    pub at: usize,
    pub due: Due,
}

impl Finding {
    // Whether the right record stands there.
    pub fn is_right(self) -> bool
        ensures { result ≡ is_right self }
    {
        matches!(self, Finding::Right)
    }
}

// What a stop of a log is where an event record is due.
pub(crate) fn stopped_as(stop: Stop) -> Finding
    ensures { result ≡ stopped_as (stop_number stop) }
{
    match stop {
        Stop::NothingLeft => Finding::Right,
        Stop::RecordShort => Finding::Short,
        _ => Finding::Wrong,
    }
}

// Where an event record is due.
fn event_at(sheet: &[u8], at: usize) -> Finding
    ensures { result ≡ stands_at Due.AnEvent sheet.now at }
{
    match front_at(sheet, at) {
        Front::Next { .. } => Finding::Right,
        Front::Stop(stop) => stopped_as(stop),
    }
}

// Where these bytes are due, of which there is one at least.
fn compared(sheet: &[u8], at: usize, due: &[u8]) -> Finding
    requires { 1 ≤ length due.now }
    ensures { result ≡ compared due.now (drop at sheet.now) }
{
    if at >= sheet.len() {
        return Finding::Missing;
    }
    let rest = &sheet[at..];
    if rest.starts_with(due) {
        return Finding::Right;
    }
    if (rest[0] == due[0]) & (rest.len() < due.len()) {
        Finding::Short
    } else {
        Finding::Wrong
    }
}

// What stands at an offset of a sheet where this is due; it looks and changes nothing.
pub fn stands_at(sheet: &[u8], at: usize, due: Due) -> Finding
    ensures { result ≡ stands_at due sheet.now at }
{
    match due {
        Due::AnEvent => event_at(sheet, at),
        Due::TheAnswer(code) => compared(sheet, at, &[ANSWER_KIND, code]),
        Due::TheAction(action) => {
            let partner = action.partner;
            let due = [
                action.number,
                partner.kind,
                partner.high,
                partner.middle,
                partner.low,
            ];
            compared(sheet, at, &due)
        }
    }
}

// The action whose five bytes stand at a place of a buffer.
fn action_in(buffer: &[u8], at: usize) -> Action
    requires { at + action_size ≤ length buffer.now }
    ensures { result ≡ action_in buffer.now at }
{
    Action {
        number: buffer[at],
        partner: Partner {
            kind: buffer[at + 1],
            high: buffer[at + 2],
            middle: buffer[at + 3],
            low: buffer[at + 4],
        },
    }
}

// How far actions that were sent stand in a sheet, from an offset on.
fn actions_at(sheet: &[u8], from: usize, sent: &[u8]) -> Point
    ensures { result ≡ dues_at (map Due.TheAction (sent_actions sent.now)) sheet.now from }
{
    let mut at = from;
    for i in 0..sent.len() / ACTION_SIZE {
        let due = Due::TheAction(action_in(sent, ACTION_SIZE * i));
        let stands = stands_at(sheet, at, due);
        if !stands.is_right() {
            return Point { stands, at, due };
        }
        at += ACTION_SIZE;
    }
    Point {
        stands: Finding::Right,
        at,
        due: Due::AnEvent,
    }
}

// How far an answer with this number and the actions that were sent stand in a sheet, from an offset on.
pub(crate) fn dues_at(sheet: &[u8], at: usize, code: u8, sent: &[u8]) -> Point
    ensures { result ≡ dues_at (Due.TheAnswer code ∷ map Due.TheAction (sent_actions sent.now)) sheet.now at }
{
    let due = Due::TheAnswer(code);
    let stands = stands_at(sheet, at, due);
    if stands.is_right() {
        return actions_at(sheet, at + ANSWER_SIZE, sent);
    }
    Point { stands, at, due }
}
