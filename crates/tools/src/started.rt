// What the box of a sheet was started with.
use crate::text::Count;
use place::limits::{FLEET_TRIES, Limits};
use std::fmt;
use std::fmt::{Display, Formatter};

// The lowest and the highest X of the fitted fleets.
pub const FLEET_LOWEST: u8 = 1;

pub const FLEET_HIGHEST: u8 = 2;

// The first line of all that is told.
#[derive(Clone, Copy)]
pub(crate) struct Start(pub(crate) Limits);

impl Display for Start {
    fn fmt<W: fmt::Write>(&self, f: &mut Formatter<W>) -> fmt::Result {
        let Limits {
            lowest,
            highest,
            tries,
        } = self.0;
        let tried = Count(usize::from(tries), "try", "tries");
        write!(f, "X {lowest} to {highest}, {tried}")?;
        match (lowest, highest, tries) {
            (FLEET_LOWEST, FLEET_HIGHEST, FLEET_TRIES) => writeln!(f, " (the fitted fleets')"),
            _ => writeln!(f),
        }
    }
}

// Whether two starts are the same.
pub(crate) fn same_limits(a: Limits, b: Limits) -> bool {
    (a.lowest, a.highest, a.tries) == (b.lowest, b.highest, b.tries)
}
