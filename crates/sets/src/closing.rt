// Closings: the members that one is for leave or terminate, the others stay.
ghost use Rattle.std.specs.Prelude.{◌≡◌, true, ◌≤◌};
ghost use Rattle.unit.specs.Forms.{listed};
ghost use Rattle.sets.specs.Members.{most_members, members_of, set_of};
ghost use Rattle.sets.specs.SixSets.{size, unpacked_six, packed_six, tidy_six};
ghost use Rattle.sets.specs.SetSteps.{shuts, goers, stayers, closed_six, closing_sent};

use crate::answer::{no_actions, send_all};
use crate::members::{Member, Members};
use crate::names::SetName;
use crate::six::SixSets;
use place::action::{RELEASE, TERMINATE};
use place::phase::FIRST_TRY;
use place::turn::Closing;
use unit::answer::Actions;

// The sets whose members a closing sends an action, and its number, in the order of the actions.
const CLOSING_ORDER: [(SetName, u8); 5] = [
    (SetName::Calling, RELEASE),
    (SetName::Contacted, RELEASE),
    (SetName::IncomingSessions, TERMINATE),
    (SetName::OutgoingSessions, TERMINATE),
    (SetName::LostSessions, RELEASE),
];

// Whether a closing is for this member of the set of this name.
fn shuts(which: Closing, name: SetName, member: Member) -> bool
    ensures { result ≡ shuts which name member }
{
    match which {
        Closing::Every => true,
        Closing::Sessions => name.in_sessions() & member.partner.is_rbc(),
        Closing::Nothing => false,
    }
}

impl Members {
    // The members that a closing is for.
    fn goers(self, which: Closing, name: SetName) -> Members
        ensures { result ≡ set_of (goers which name (members_of self)) }
    {
        self.those(|member| shuts(which, name, member))
    }

    // The others.
    fn stayers(self, which: Closing, name: SetName) -> Members
        ensures { result ≡ set_of (stayers which name (members_of self)) }
    {
        self.those(|member| !shuts(which, name, member))
    }
}

impl SixSets {
    // The sets after a closing.
    pub(crate) fn closed(self, which: Closing) -> SixSets
        requires { (tidy_six self ≡ true) × (size (unpacked_six self) ≤ most_members) }
        ensures { result ≡ packed_six (closed_six which (unpacked_six self)) }
    {
        let called = self.incoming.goers(which, SetName::IncomingSessions);
        let ours = self.outgoing.goers(which, SetName::OutgoingSessions);
        let ended = called.joined(ours).tried(FIRST_TRY);
        SixSets {
            calling: self.calling.stayers(which, SetName::Calling),
            contacted: self.contacted.stayers(which, SetName::Contacted),
            incoming: self.incoming.stayers(which, SetName::IncomingSessions),
            outgoing: self.outgoing.stayers(which, SetName::OutgoingSessions),
            lost: self.lost.stayers(which, SetName::LostSessions),
            terminating: self.terminating.joined(ended),
        }
    }

    // The actions of a closing.
    pub(crate) fn closing_actions(self, which: Closing) -> Actions
        requires { (tidy_six self ≡ true) × (size (unpacked_six self) ≤ most_members) }
        ensures { result ≡ listed (closing_sent which (unpacked_six self)) }
    {
        let mut sent = no_actions();
        for (name, number) in CLOSING_ORDER {
            sent = send_all(sent, self.set(name).goers(which, name), number);
        }
        sent
    }
}
