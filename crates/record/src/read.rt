// Reading an event record from its bytes.
ghost use Rattle.std.specs.Prelude.{◌≡◌, ◌≤◌, cond, ◌&&◌, ltb, length};
ghost use Rattle.wire.specs.Bytes.{bit, flag};
ghost use Rattle.record.specs.Partners.{partner_ok, named_ok};
ghost use Rattle.record.specs.Records.{length_of, partner_in, causes, cause_of, message_ok, message_means, row_of, partner_row, reading};
ghost use Rattle.record.specs.Readings.{Meant, Refused, told_reading};
ghost use Rattle.record.specs.Rows.{fields};
ghost use Rattle.wire.specs.Refusals.{out_of_range};

use crate::event::{Cause, Event, PartnerEvent};
use crate::partner::Partner;
use wire::join::and;
use wire::refusal::Refusal;

// The kinds of record, and the number below them.
pub(crate) const NO_KIND: u8 = 0;

pub const KIND_LEVEL: u8 = 1;

pub const KIND_MISSION: u8 = 2;

pub const KIND_MODE: u8 = 3;

pub const KIND_HOLE: u8 = 4;

pub const KIND_ORDER: u8 = 5;

pub const KIND_DROP: u8 = 6;

pub const KIND_END_ALL: u8 = 7;

pub const KIND_UP: u8 = 8;

pub const KIND_LOSS: u8 = 9;

pub const KIND_TIMEOUT: u8 = 10;

pub const KIND_MESSAGE: u8 = 11;

// The length of a record by its kind; 0 where no kind has that number.
const LENGTHS: [u8; 12] = [0, 3, 2, 1, 2, 7, 5, 2, 5, 5, 5, 7];

// The largest level, mission and version, the number of causes, and the messages of a partner.
pub const HIGHEST_LEVEL: u8 = 4;

pub const HIGHEST_MISSION: u8 = 2;

const CAUSES: u8 = 5;

const HIGHEST_VERSION: u8 = 127;

const MESSAGE_VERSION: u8 = 32;

const MESSAGE_CALL: u8 = 38;

const MESSAGE_ENDED: u8 = 39;

// The length of a record of this kind; 0 where no kind has that number.
pub fn length_of(kind: u8) -> usize
    ensures { result ≡ length_of kind }
{
    if kind <= KIND_MESSAGE {
        usize::from(LENGTHS[usize::from(kind)])
    } else {
        0
    }
}

fn within(ok: bool, event: Event) -> Result<Event, Refusal>
    ensures { told_reading result ≡ cond ok (Meant event) (Refused out_of_range) }
{
    if ok {
        Ok(event)
    } else {
        Err(Refusal::OutOfRange)
    }
}

fn partner_in(s: &[u8]) -> Partner
    requires { 5 ≤ length s.now }
    ensures { result ≡ partner_in s.now }
{
    Partner {
        kind: s[1],
        high: s[2],
        middle: s[3],
        low: s[4],
    }
}

fn level_body(s: &[u8]) -> Result<Event, Refusal>
    requires { 3 ≤ length s.now }
    ensures { told_reading result ≡ fields (row_of 1) s.now }
{
    let level = s[1];
    let manual = s[2];
    within(
        and(level <= HIGHEST_LEVEL, manual <= 1),
        Event::Level {
            level: u64::from(level),
            manual: manual == 1,
        },
    )
}

fn mission_body(s: &[u8]) -> Result<Event, Refusal>
    requires { 2 ≤ length s.now }
    ensures { told_reading result ≡ fields (row_of 2) s.now }
{
    let mission = s[1];
    within(
        mission <= HIGHEST_MISSION,
        Event::Mission {
            mission: u64::from(mission),
        },
    )
}

fn hole_body(s: &[u8]) -> Result<Event, Refusal>
    requires { 2 ≤ length s.now }
    ensures { told_reading result ≡ fields (row_of 4) s.now }
{
    let entered = s[1];
    within(
        entered <= 1,
        Event::Hole {
            entered: entered == 1,
        },
    )
}

fn cause_of(b: u8) -> Cause
    ensures { result ≡ cause_of b }
{
    match b {
        1 => Cause::Trackside,
        2 => Cause::ModeChange,
        3 => Cause::ManualLevel,
        4 => Cause::HoleEnd,
        _ => Cause::StartOfMission,
    }
}

fn order_of(partner: Partner, accepting: u8, cause: u8) -> Result<Event, Refusal>
    ensures { told_reading result
        ≡ cond (partner_ok partner && (bit accepting && ltb cause (length causes)))
        (Meant (Event.Order partner (flag accepting) (cause_of cause)))
        (Refused out_of_range) }
{
    within(
        and(partner.in_range(), and(accepting <= 1, cause < CAUSES)),
        Event::Order {
            partner,
            accepting: accepting == 1,
            cause: cause_of(cause),
        },
    )
}

fn order_body(s: &[u8]) -> Result<Event, Refusal>
    requires { 7 ≤ length s.now }
    ensures { told_reading result ≡ fields (row_of 5) s.now }
{
    order_of(partner_in(s), s[5], s[6])
}

fn partner_body(s: &[u8], event: PartnerEvent) -> Result<Event, Refusal>
    requires { 5 ≤ length s.now }
    ensures { told_reading result ≡ fields (partner_row event) s.now }
{
    let partner = partner_in(s);
    within(partner.can_be_named(), Event::Named { partner, event })
}

fn end_all_body(s: &[u8]) -> Result<Event, Refusal>
    requires { 2 ≤ length s.now }
    ensures { told_reading result ≡ fields (row_of 7) s.now }
{
    within(s[1] <= 1, Event::EndAll)
}

fn message_of(partner: Partner, number: u8, version: u8) -> Result<Event, Refusal>
    ensures { told_reading result
        ≡ cond (named_ok partner && message_ok number version) (Meant (message_means number version partner))
        (Refused out_of_range) }
{
    let nameable = partner.can_be_named();
    if number == MESSAGE_VERSION {
        return within(
            and(nameable, version <= HIGHEST_VERSION),
            Event::Named {
                partner,
                event: PartnerEvent::Version(version),
            },
        );
    }
    if number == MESSAGE_CALL {
        return within(and(nameable, version == 0), Event::Call { partner });
    }
    within(
        and(nameable, and(number == MESSAGE_ENDED, version == 0)),
        Event::Named {
            partner,
            event: PartnerEvent::Ended,
        },
    )
}

fn message_body(s: &[u8]) -> Result<Event, Refusal>
    requires { 7 ≤ length s.now }
    ensures { told_reading result ≡ fields (row_of 11) s.now }
{
    message_of(partner_in(s), s[5], s[6])
}

// What the fields of a record of this kind mean; refusal 3 where one is outside its range.
pub(crate) fn fields_of(kind: u8, s: &[u8]) -> Result<Event, Refusal>
    requires { length_of kind ≤ length s.now }
    ensures { told_reading result ≡ fields (row_of kind) s.now }
{
    match kind {
        KIND_LEVEL => level_body(s),
        KIND_MISSION => mission_body(s),
        KIND_MODE => Ok(Event::Mode),
        KIND_HOLE => hole_body(s),
        KIND_ORDER => order_body(s),
        KIND_DROP => partner_body(s, PartnerEvent::Drop),
        KIND_END_ALL => end_all_body(s),
        KIND_UP => partner_body(s, PartnerEvent::Up),
        KIND_LOSS => partner_body(s, PartnerEvent::Loss),
        KIND_TIMEOUT => partner_body(s, PartnerEvent::Timeout),
        KIND_MESSAGE => message_body(s),
        _ => Err(Refusal::OutOfRange),
    }
}

// Reads a record: the event that it means, or refusal 1, 2 or 3, in the order 1 (empty), 2, 1 (length), 3.
pub fn read(s: &[u8]) -> Result<Event, Refusal>
    ensures { told_reading result ≡ reading s.now }
{
    if s.len() == 0 {
        return Err(Refusal::WrongLength);
    }
    let kind = s[0];
    if kind == NO_KIND {
        return Err(Refusal::UnknownKind);
    }
    if kind > KIND_MESSAGE {
        return Err(Refusal::UnknownKind);
    }
    let length = length_of(kind);
    if s.len() != length {
        return Err(Refusal::WrongLength);
    }
    fields_of(kind, s)
}
