// Events: what a record means.
use crate::partner::Partner;

// The six events that a phase takes: the columns of the phase table.
#[derive(Clone, Copy)]
pub enum PartnerEvent {
    Drop,
    Up,
    Loss,
    Timeout,
    // Message 32 with the system version.
    Version(u8),
    // Message 39.
    Ended,
}

// What an order is given for.
#[derive(Clone, Copy)]
pub enum Cause {
    StartOfMission,
    Trackside,
    ModeChange,
    ManualLevel,
    HoleEnd,
}

// An event that a record means. The reason of an end all changes nothing and is not kept. The level and the mission are words of 64
// bits: they then do not lie across a partner's bytes, and the compiled code keeps an event in registers.
#[derive(Clone, Copy)]
pub enum Event {
    Level {
        level: u64,
        manual: bool,
    },
    Mission {
        mission: u64,
    },
    Mode,
    Hole {
        entered: bool,
    },
    Order {
        partner: Partner,
        accepting: bool,
        cause: Cause,
    },
    EndAll,
    // Message 38.
    Call {
        partner: Partner,
    },
    Named {
        partner: Partner,
        event: PartnerEvent,
    },
}
