// The stops of a run, with their numbers.
ghost use Rattle.std.specs.Prelude.{◌≡◌};
ghost use Rattle.record.specs.Ends.{Stops};
ghost use Rattle.record.specs.Stops.{stop_number};

// Why a run, or the taking of a record, goes no further.
#[derive(Clone, Copy, Debug, PartialEq, Eq)]
pub enum Stop {
    NothingLeft = 0,
    BudgetUsed = 1,
    RecordShort = 2,
    KindUnknown = 3,
}

impl Stop {
    // Its number.
    pub fn number(self) -> u8
        ensures { result ≡ stop_number self }
    {
        self as u8
    }
}

// A number that no stop has.
#[derive(Clone, Copy, Debug, PartialEq, Eq)]
pub struct NoStop;

impl TryFrom<u8> for Stop {
    type Error = NoStop;

    ghost try_from_gives = { Stops };

    // The stop that has this number.
    fn try_from(number: u8) -> Result<Stop, NoStop> {
        match number {
            0 => Ok(Stop::NothingLeft),
            1 => Ok(Stop::BudgetUsed),
            2 => Ok(Stop::RecordShort),
            3 => Ok(Stop::KindUnknown),
            _ => Err(NoStop),
        }
    }
}
