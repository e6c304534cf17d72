// The layout of an image: its kinds, their lengths, and where its places and the last known RBC begin.

// The kinds of an image.
pub const KIND_A1: u8 = 0xA1;

pub const KIND_A2: u8 = 0xA2;

// The length of an image of each kind.
pub const SIZE_A1: usize = 37;

pub const SIZE_A2: usize = 42;

// The bytes of a body before its places.
pub const HEAD_SIZE: usize = 8;

// Where the places begin, and the bytes of each.
pub const PLACES_AT: usize = 9;

pub const PLACE_SIZE: usize = 7;

// Where the last known RBC begins in A2, and its bytes.
pub const LAST_AT: usize = 38;

pub const LAST_SIZE: usize = 4;
