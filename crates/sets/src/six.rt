// The six sets together.
ghost use Rattle.std.specs.Prelude.{◌≡◌, true, ◌≤◌, map, find};
ghost use Rattle.std.specs.List.{list_all};
ghost use Rattle.sets.specs.Members.{most_members, has_member, all_of, members_of, set_of, tidy};
ghost use Rattle.sets.specs.SixSets.{size, everyone, member_ok, unpacked_six, packed_six, tidy_six, no_sets};
ghost use Rattle.sets.specs.Holding.{six_names, held_set, with_held, sound_six};

use crate::members::{MOST_MEMBERS, Members};
use crate::names::SetName;
use place::limits::Limits;
use record::partner::Partner;

// The six sets.
#[derive(Clone, Copy)]
pub struct SixSets {
    pub calling: Members,
    pub contacted: Members,
    pub incoming: Members,
    pub outgoing: Members,
    pub lost: Members,
    pub terminating: Members,
}

// Whether each of these sets has zeros after its members.
fn all_tidy(sets: &[Members]) -> bool
    ensures { result ≡ list_all tidy sets.now }
{
    sets.iter().all(|members| members.is_tidy())
}

// Whether each member of these sets is sound by itself in the set of its name.
fn all_sound(sets: &[(SetName, Members)], limits: Limits) -> bool
    ensures { result ≡ list_all (λ set. all_of (member_ok limits set.0) (members_of set.1)) sets.now }
{
    sets.iter()
        .all(|(name, members)| members.are_sound(*name, limits))
}

impl SixSets {
    // Six empty sets.
    pub(crate) fn none() -> SixSets
        ensures { result ≡ packed_six no_sets }
    {
        let none = Members::none();
        SixSets {
            calling: none,
            contacted: none,
            incoming: none,
            outgoing: none,
            lost: none,
            terminating: none,
        }
    }

    // The set of this name.
    pub(crate) fn set(self, name: SetName) -> Members
        ensures { result ≡ held_set name self }
    {
        match name {
            SetName::Calling => self.calling,
            SetName::Contacted => self.contacted,
            SetName::IncomingSessions => self.incoming,
            SetName::OutgoingSessions => self.outgoing,
            SetName::LostSessions => self.lost,
            SetName::TerminatingSessions => self.terminating,
        }
    }

    // The six with another set of this name.
    pub(crate) fn with_set(self, name: SetName, members: Members) -> SixSets
        ensures { result ≡ with_held name members self }
    {
        match name {
            SetName::Calling => SixSets {
                calling: members,
                ..self
            },
            SetName::Contacted => SixSets {
                contacted: members,
                ..self
            },
            SetName::IncomingSessions => SixSets {
                incoming: members,
                ..self
            },
            SetName::OutgoingSessions => SixSets {
                outgoing: members,
                ..self
            },
            SetName::LostSessions => SixSets {
                lost: members,
                ..self
            },
            SetName::TerminatingSessions => SixSets {
                terminating: members,
                ..self
            },
        }
    }

    // The sets in the order of their names.
    fn in_order(self) -> [Members; 6]
        ensures { result ≡ map (λ name. held_set name self) six_names }
    {
        [
            self.calling,
            self.contacted,
            self.incoming,
            self.outgoing,
            self.lost,
            self.terminating,
        ]
    }

    // Whether each set has zeros after its members.
    fn are_tidy(self) -> bool
        ensures { result ≡ list_all (λ name. tidy (held_set name self)) six_names }
    {
        all_tidy(&self.in_order())
    }

    // How many members there are in all.
    #[tactic(auto, using(crate::proofs::SixLaws::counted))]
    pub(crate) fn size(self) -> usize
        requires { tidy_six self ≡ true }
        ensures { result ≡ size (unpacked_six self) }
    {
        self.calling.count
            + (self.contacted.count
                + (self.incoming.count
                    + (self.outgoing.count + (self.lost.count + self.terminating.count))))
    }

    // Whether each member of each set is sound by itself.
    fn are_sound(self, limits: Limits) -> bool
        ensures { result ≡ list_all (λ name. all_of (member_ok limits name) (members_of (held_set name self))) six_names }
    {
        let sets = [
            (SetName::Calling, self.calling),
            (SetName::Contacted, self.contacted),
            (SetName::IncomingSessions, self.incoming),
            (SetName::OutgoingSessions, self.outgoing),
            (SetName::LostSessions, self.lost),
            (SetName::TerminatingSessions, self.terminating),
        ];
        all_sound(&sets, limits)
    }

    // The union of the six.
    fn everyone(self) -> Members
        requires { (tidy_six self ≡ true) × (size (unpacked_six self) ≤ most_members) }
        ensures { result ≡ set_of (everyone (unpacked_six self)) }
    {
        let mut all = Members::none();
        for members in self.in_order() {
            all = all.joined(members);
        }
        all
    }

    // Whether the sets are in their form, of at most four members in all, each sound by itself, and no partner stands twice.
    pub(crate) fn is_sound(self, limits: Limits) -> bool
        ensures { result ≡ sound_six limits self }
    {
        self.are_tidy()
            && (self.size() <= MOST_MEMBERS
                && (self.are_sound(limits) && self.everyone().are_apart()))
    }

    // The name of the set that the partner stands in.
    pub(crate) fn whereabouts(self, partner: Partner) -> Option<SetName>
        ensures { result ≡ find (λ name. has_member partner (members_of (held_set name self))) six_names }
    {
        SetName::ALL
            .iter()
            .copied()
            .find(|name| self.set(*name).has(partner))
    }
}
