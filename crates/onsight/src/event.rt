// The events of the On-Sight procedure: values, and no records of a log.
ghost use Rattle.std.specs.Prelude.{◌≡◌};
ghost use Rattle.onsight.specs.Numbers.{area_number, mode_number, event_number};

use std::fmt;

// Where the area of a profile lies.
#[derive(Clone, Copy)]
pub enum Area {
    Ahead = 0,
    Entered = 1,
}

// The mode when the profile comes: On-Sight, stand-by, post-trip, or another.
#[derive(Clone, Copy)]
pub enum Mode {
    OS = 0,
    SB = 1,
    PT = 2,
    Another = 3,
}

// What the procedure is told.
#[derive(Clone, Copy)]
pub enum Event {
    // A profile with an On-Sight area.
    Profile { area: Area, mode: Mode },
    // Front and speed are in the window.
    Window,
    // The safe front passes the start.
    Start,
    // The driver acknowledges.
    Acknowledgement,
    // The timer expires.
    Expiry,
}

impl Area {
    // Its number: 0 ahead, 1 entered.
    pub fn number(self) -> u8
        ensures { result ≡ area_number self }
    {
        self as u8
    }
}

impl Mode {
    // Its number, 0 to 3.
    pub fn number(self) -> u8
        ensures { result ≡ mode_number self }
    {
        self as u8
    }
}

impl Event {
    // The number of its kind, 0 to 4.
    pub fn number(self) -> u8
        ensures { result ≡ event_number self }
    {
        match self {
            Event::Profile { .. } => 0,
            Event::Window => 1,
            Event::Start => 2,
            Event::Acknowledgement => 3,
            Event::Expiry => 4,
        }
    }
}

impl fmt::Display for Area {
    fn fmt<W: fmt::Write>(&self, f: &mut fmt::Formatter<W>) -> fmt::Result {
        f.write_str(match self {
            Area::Ahead => "ahead",
            Area::Entered => "entered",
        })
    }
}

impl fmt::Display for Mode {
    fn fmt<W: fmt::Write>(&self, f: &mut fmt::Formatter<W>) -> fmt::Result {
        f.write_str(match self {
            Mode::OS => "OS",
            Mode::SB => "SB",
            Mode::PT => "PT",
            Mode::Another => "another",
        })
    }
}

impl fmt::Display for Event {
    fn fmt<W: fmt::Write>(&self, f: &mut fmt::Formatter<W>) -> fmt::Result {
        match self {
            Event::Profile { area, mode } => write!(f, "{area}/{mode}"),
            Event::Window => write!(f, "window"),
            Event::Start => write!(f, "start"),
            Event::Acknowledgement => write!(f, "acknowledgement"),
            Event::Expiry => write!(f, "expiry"),
        }
    }
}
