// The queue of the places that wait for a modem: at most two of four can, since two hold the modems.
ghost use Rattle.std.specs.Prelude.{◌≡◌, true, [], ◌++◌, ◌<◌, ◌≤◌, length};
ghost use Rattle.shunter.specs.Queues.{modem_count, no_place, somebody, waiting, queued, in_order, among};

// Two modems.
pub const MODEMS: usize = 2;

// What stands in the queue where nobody waits.
pub const NO_PLACE: usize = 4;

// The numbers of the places that wait, the one that waits longest first.
#[derive(Clone, Copy)]
pub struct Queue {
    pub first: usize,
    pub second: usize,
}

impl Queue {
    // Nobody waits.
    #[tactic(auto, unfolding(crate::specs::Queues::queued))]
    pub(crate) fn none() -> Queue
        ensures { result ≡ queued [] }
    {
        Queue {
            first: NO_PLACE,
            second: NO_PLACE,
        }
    }

    // Whether nobody stands in front of somebody.
    pub(crate) fn in_order(self) -> bool
        ensures { result ≡ in_order self }
    {
        (self.first != NO_PLACE) | (self.second == NO_PLACE)
    }

    // Whether this place waits.
    pub(crate) fn has(self, place: usize) -> bool
        requires { place < no_place }
        ensures { result ≡ among place (waiting self) }
    {
        (place == self.first) | (place == self.second)
    }

    // The queue with one more at its end; 4 is nobody.
    pub(crate) fn joined(self, place: usize) -> Queue
        ensures { in_order self ≡ true
            → length (waiting self ++ somebody place) ≤ modem_count
            → result ≡ queued (waiting self ++ somebody place) }
    {
        if place == NO_PLACE {
            return self;
        }
        if self.first == NO_PLACE {
            return Queue {
                first: place,
                second: NO_PLACE,
            };
        }
        Queue {
            first: self.first,
            second: place,
        }
    }
}
