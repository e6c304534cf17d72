// The refusals of the core with their numbers.
ghost use Rattle.std.specs.Prelude.{◌≡◌};
ghost use Rattle.wire.specs.Codes.{Numbers};
ghost use Rattle.wire.specs.Refusals.{number};

// What an answer carries where nothing was refused.
pub const ACCEPTED: u8 = 0;

// Why a record, a state, an image, a log or a start is refused, in the order of the numbers.
#[derive(Clone, Copy, Debug, PartialEq, Eq)]
pub enum Refusal {
    WrongLength = 1,
    UnknownKind = 2,
    OutOfRange = 3,
    NotInForce = 4,
    HasPlace = 5,
    HasNone = 6,
    NotTaken = 7,
    AllTaken = 8,
    CallFromRiu = 9,
    NoRoom = 10,
    NotSound = 11,
    LogTooLong = 12,
    BadLimits = 13,
    NoneKnown = 15,
    NotInA1 = 16,
}

impl Refusal {
    // Its number.
    pub fn number(self) -> u8
        ensures { result ≡ number self }
    {
        self as u8
    }
}

// A number that no refusal has.
#[derive(Clone, Copy, Debug, PartialEq, Eq)]
pub struct NoRefusal;

impl TryFrom<u8> for Refusal {
    type Error = NoRefusal;

    ghost try_from_gives = { Numbers };

    // The refusal that has this number.
    fn try_from(number: u8) -> Result<Refusal, NoRefusal> {
        match number {
            1 => Ok(Refusal::WrongLength),
            2 => Ok(Refusal::UnknownKind),
            3 => Ok(Refusal::OutOfRange),
            4 => Ok(Refusal::NotInForce),
            5 => Ok(Refusal::HasPlace),
            6 => Ok(Refusal::HasNone),
            7 => Ok(Refusal::NotTaken),
            8 => Ok(Refusal::AllTaken),
            9 => Ok(Refusal::CallFromRiu),
            10 => Ok(Refusal::NoRoom),
            11 => Ok(Refusal::NotSound),
            12 => Ok(Refusal::LogTooLong),
            13 => Ok(Refusal::BadLimits),
            15 => Ok(Refusal::NoneKnown),
            16 => Ok(Refusal::NotInA1),
            _ => Err(NoRefusal),
        }
    }
}
