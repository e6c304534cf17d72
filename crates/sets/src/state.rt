// The state of the engine of sets, and whether it is sound.
ghost use Rattle.std.specs.Prelude.{◌≡◌};
ghost use Rattle.sets.specs.SixSets.{set_ready};

use crate::six::SixSets;
use place::limits::Limits;
use unit::last::Last;
use unit::state::{Marks, Train, limits_ok, marks_ok, train_ok};

// All that the engine remembers: the box's fields, with six sets of partners in place of four places.
#[derive(Clone, Copy)]
pub struct SetState {
    pub limits: Limits,
    pub train: Train,
    pub marks: Marks,
    pub sets: SixSets,
    pub last: Last,
}

impl SetState {
    // Whether the state is sound.
    pub fn is_sound(self) -> bool
        ensures { result ≡ set_ready self }
    {
        limits_ok(self.limits)
            & (train_ok(self.train)
                & (marks_ok(self.marks) & (self.last.is_sound() & self.sets.is_sound(self.limits))))
    }
}
