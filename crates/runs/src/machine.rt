// What a run needs of a machine: whether it is ready, and what it answers to a record.
ghost use Rattle.std.specs.Prelude.{◌≡◌, ◌≤◌, ℕ, Bool, List, length};
ghost use Rattle.unit.specs.Forms.{most_actions};
ghost use Rattle.runs.specs.Machines.{Applying};
ghost use Rattle.runs.specs.Counting.{applied_of};

use unit::answer::Actions;

// What a machine answers to a record: 0 or the number of the refusal, the machine then, and the actions that go out.
#[derive(Clone, Copy)]
pub struct Applied<M> {
    pub code: u8,
    pub state: M,
    pub actions: Actions,
}

// A machine that event records are applied to.
pub trait Machine: Copy {
    ghost ready: { Self → Bool };

    ghost gives: { Self → List ℕ → Applying Self };

    // Whether its state is sound.
    fn is_ready(self) -> bool
        ensures { result ≡ ready self };

    // Applies an event record; no step has more actions than one of the box.
    fn answer(self, bytes: &[u8]) -> Applied<Self>
        ensures given { result ≡ applied_of (gives self bytes.now) }
        ensures few { length (gives self bytes.now).actions ≤ most_actions };
}
