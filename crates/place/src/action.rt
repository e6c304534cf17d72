// The numbers of the six actions.
pub const REQUEST: u8 = 21;

pub const RELEASE: u8 = 22;

pub const INCOMPATIBLE: u8 = 154;

pub const INITIATE: u8 = 155;

pub const TERMINATE: u8 = 156;

pub const ESTABLISHED: u8 = 159;

// The number that stands where there is no action.
pub const NO_ACTION: u8 = 0;
