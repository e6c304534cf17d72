// The last known RBC: the one of the most recent 159 sent to an RBC.
ghost use Rattle.std.specs.Prelude.{◌≡◌};
ghost use Rattle.unit.specs.Lasts.{last_ok, known_or, meant, recalled_by};
ghost use Rattle.unit.specs.Steps.{act};

use place::action::ESTABLISHED;
use record::partner::{Partner, RBC};
use wire::join::{and, negated};

// No RBC, or the three number bytes of one.
#[derive(Clone, Copy)]
pub enum Last {
    Unknown,
    Known { high: u8, middle: u8, low: u8 },
}

impl Last {
    // Whether it is none, or one that an RBC may have.
    pub fn is_sound(self) -> bool
        ensures { result ≡ last_ok self }
    {
        match self {
            Last::Unknown => true,
            Last::Known { high, middle, low } => negated(Partner {
                kind: RBC,
                high,
                middle,
                low,
            }
            .is_reserved()),
        }
    }

    // The RBC that is known; where none is, this partner.
    fn known_or(self, partner: Partner) -> Partner
        ensures { result ≡ known_or partner self }
    {
        match self {
            Last::Unknown => partner,
            Last::Known { high, middle, low } => Partner {
                kind: RBC,
                high,
                middle,
                low,
            },
        }
    }

    // The partner that an order means: the last known RBC where it names the reserved one.
    pub fn meant(self, partner: Partner) -> Partner
        ensures { result ≡ meant self partner }
    {
        if partner.is_reserved() {
            self.known_or(partner)
        } else {
            partner
        }
    }

    // What is known after an action for this partner.
    pub fn recall(self, partner: Partner, number: u8) -> Last
        ensures { result ≡ recalled_by self (act partner number) }
    {
        if and(number == ESTABLISHED, partner.is_rbc()) {
            Last::Known {
                high: partner.high,
                middle: partner.middle,
                low: partner.low,
            }
        } else {
            self
        }
    }
}
