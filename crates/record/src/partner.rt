// Partners: radio block centres and radio in-fill units.
ghost use Rattle.std.specs.Prelude.{◌≡◌};
ghost use Rattle.record.specs.Partners.{is_rbc, partner_ok, same_partner, reserved, named_ok};

use wire::join::{and, negated};

// The types of a partner.
pub const RBC: u8 = 0;

pub const RIU: u8 = 1;

// NID_RBC is the low 14 bits of a number: six of its middle byte, and its low byte. The one that means the last known RBC, 16,383, has
// all of them set.
const MIDDLE_VALUES: u8 = 64;

const SIX_BITS: u8 = 63;

const EIGHT_BITS: u8 = 255;

// A partner: its type (here `kind`, since `type` is a word of the language) and the three bytes of its number, as on the wire.
#[derive(Clone, Copy, Debug, PartialEq, Eq)]
pub struct Partner {
    pub kind: u8,
    pub high: u8,
    pub middle: u8,
    pub low: u8,
}

impl Partner {
    // Whether the two have the same type and number.
    pub fn same(self, other: Partner) -> bool
        ensures { result ≡ same_partner self other }
    {
        self == other
    }

    // Whether it is an RBC.
    pub fn is_rbc(self) -> bool
        ensures { result ≡ is_rbc self }
    {
        self.kind == RBC
    }

    // Whether its type is in its range.
    pub fn in_range(self) -> bool
        ensures { result ≡ partner_ok self }
    {
        self.kind <= RIU
    }

    // Whether it is an RBC with the number that means the last known one. The low byte is asked first: few partners get further.
    pub fn is_reserved(self) -> bool
        ensures { result ≡ reserved self }
    {
        if self.low == EIGHT_BITS {
            and(self.is_rbc(), self.middle % MIDDLE_VALUES == SIX_BITS)
        } else {
            false
        }
    }

    // Whether it may have a place, or be named by an event other than an order.
    pub fn can_be_named(self) -> bool
        ensures { result ≡ named_ok self }
    {
        and(self.in_range(), negated(self.is_reserved()))
    }
}
