// What the box supports, and how often it tries.

// The lowest and the highest supported version X, and the number of tries at anything.
#[derive(Clone, Copy)]
pub struct Limits {
    pub lowest: u8,
    pub highest: u8,
    pub tries: u8,
}

// The largest number of tries.
pub const MOST_TRIES: u8 = 9;

// The number of tries where none is given.
pub const DEFAULT_TRIES: u8 = 5;

// The number of tries of the fitted fleets, and of a refused cold start or image read.
pub const FLEET_TRIES: u8 = 3;
