// One set: its members, and the set operations of the model: membership, union, difference.
ghost use Rattle.std.specs.Prelude.{◌≡◌, Bool, true, [], ◌++◌, map, position, ◌+◌, ◌<◌, ◌≤◌};
ghost use Rattle.sets.specs.Members.{most_members, no_member, is_for, has_member, member_for, without, joining, all_of, apart, those};
ghost use Rattle.sets.specs.declared.members.Member.{Member};
ghost use Rattle.sets.specs.Members.{is_no_member, members_of, set_of, tidy};
ghost use Rattle.sets.specs.SixSets.{may_be, member_ok};
ghost use Rattle.sets.specs.SetSteps.{tried};

use crate::names::SetName;
use place::limits::Limits;
use place::place::Direction;
use record::partner::Partner;

// At most four members in all.
pub const MOST_MEMBERS: usize = 4;

// A member of a set: its partner, the tries used, and who made the connection.
#[derive(Clone, Copy)]
pub struct Member {
    pub partner: Partner,
    pub tries: u8,
    pub direction: Direction,
}

// A set: its members, so many of them; the items after them are zeros.
#[derive(Clone, Copy)]
pub struct Members {
    pub items: [Member; 4],
    pub count: usize,
}

// Whether a member of this direction may be this partner: no RIU calls.
fn may_be(direction: Direction, partner: Partner) -> bool
    ensures { result ≡ may_be direction partner }
{
    match direction {
        Direction::Outgoing => true,
        Direction::Incoming => partner.is_rbc(),
    }
}

impl Member {
    // What stands after the last member.
    pub(crate) fn none() -> Member
        ensures { result ≡ no_member }
    {
        Member {
            partner: Partner {
                kind: 0,
                high: 0,
                middle: 0,
                low: 0,
            },
            tries: 0,
            direction: Direction::Outgoing,
        }
    }

    // Whether it is this partner.
    fn is_for(self, partner: Partner) -> bool
        ensures { result ≡ is_for partner self }
    {
        partner.same(self.partner)
    }

    // Whether nothing but zeros stands here.
    fn is_none(self) -> bool
        ensures { result ≡ is_no_member self }
    {
        self.is_for(Member::none().partner) & ((self.tries == 0) & (self.direction.number() == 0))
    }

    // The same member with other tries.
    pub(crate) fn tried(self, tries: u8) -> Member
        ensures { result ≡ tried tries self }
    {
        Member { tries, ..self }
    }

    // Whether it is sound by itself in the set of this name.
    #[tactic(auto, unfolding(crate::specs::SixSets::member_ok))]
    fn is_sound(self, name: SetName, limits: Limits) -> bool
        ensures { result ≡ member_ok limits name self }
    {
        self.partner.can_be_named()
            & (name.allows_tries(self.tries, limits)
                & (name.allows(self.direction) & may_be(self.direction, self.partner)))
    }
}

// Whether nothing but zeros stands in any of these.
fn are_none(members: &[Member]) -> bool
    ensures { result ≡ all_of is_no_member members.now }
{
    members.iter().all(|member| member.is_none())
}

// Whether the partner is one of these members.
fn is_among(members: &[Member], partner: Partner) -> bool
    ensures { result ≡ has_member partner members.now }
{
    members.iter().any(|member| member.is_for(partner))
}

impl Members {
    // The empty set.
    #[tactic(auto, unfolding(crate::specs::Members::set_of))]
    pub(crate) fn none() -> Members
        ensures { result ≡ set_of [] }
    {
        Members {
            items: [Member::none(); 4],
            count: 0,
        }
    }

    // The members alone, without the zeros after them.
    pub(crate) fn held(&self) -> &[Member]
        ensures { result.now ≡ members_of self.now }
    {
        &self.items[..self.count.min(MOST_MEMBERS)]
    }

    // Whether it has four members at most, and zeros after them.
    pub(crate) fn is_tidy(self) -> bool
        ensures { result ≡ tidy self }
    {
        if self.count > MOST_MEMBERS {
            return false;
        }
        are_none(&self.items[self.count..])
    }

    // Whether each member is sound by itself in the set of this name.
    pub(crate) fn are_sound(self, name: SetName, limits: Limits) -> bool
        ensures { result ≡ all_of (member_ok limits name) (members_of self) }
    {
        self.held()
            .iter()
            .all(|member| member.is_sound(name, limits))
    }

    // The number of the first member that is the partner.
    fn position(self, partner: Partner) -> Option<usize>
        ensures { result ≡ position (is_for partner) (members_of self) }
    {
        self.held().iter().position(|member| member.is_for(partner))
    }

    // Whether the partner is a member.
    pub(crate) fn has(self, partner: Partner) -> bool
        ensures { result ≡ has_member partner (members_of self) }
    {
        is_among(self.held(), partner)
    }

    // The member that is the partner; zeros where none is.
    pub(crate) fn member(self, partner: Partner) -> Member
        ensures { result ≡ member_for partner (members_of self) }
    {
        match self.position(partner) {
            Some(at) => self.items[at],
            None => Member::none(),
        }
    }

    // Whether no partner is a member twice.
    pub(crate) fn are_apart(self) -> bool
        ensures { result ≡ apart (members_of self) }
    {
        let members = self.held();
        for (i, member) in members.iter().enumerate() {
            if is_among(&members[i + 1..], member.partner) {
                return false;
            }
        }
        true
    }

    // The set with one member more, after the others.
    pub(crate) fn with(self, member: Member) -> Members
        requires { (tidy self ≡ true) × (self.count < most_members) }
        ensures { result ≡ set_of (joining (members_of self) member) }
    {
        let count = self.count;
        let mut items = self.items;
        items[count] = member;
        Members {
            items,
            count: count + 1,
        }
    }

    // The set without the partner.
    pub(crate) fn without(self, partner: Partner) -> Members
        requires { tidy self ≡ true }
        ensures { result ≡ set_of (without partner (members_of self)) }
    {
        let Some(at) = self.position(partner) else {
            return self;
        };
        let mut items = self.items;
        items.copy_within(at + 1.., at);
        items[MOST_MEMBERS - 1] = Member::none();
        Members {
            items,
            count: self.count - 1,
        }
    }

    // The members that pass a test.
    pub(crate) fn those<F: Fn(Member) -> bool>(self, test: F) -> Members
        requires { F.IsAlwaysCallable test }
        ensures { (passes : Member → Bool)
            → ((m : Member) (b : Bool) → F.post test m b → b ≡ passes m)
            → result ≡ set_of (those passes (members_of self)) }
    {
        let mut kept = Members::none();
        for member in self.held() {
            if test(*member) {
                kept = kept.with(*member);
            }
        }
        kept
    }

    // The union with another set that has no member of this one.
    pub(crate) fn joined(self, other: Members) -> Members
        requires { (tidy self ≡ true) × (tidy other ≡ true) × (self.count + other.count ≤ most_members) }
        ensures { result ≡ set_of (members_of self ++ members_of other) }
    {
        let mut all = self;
        for member in other.held() {
            all = all.with(*member);
        }
        all
    }

    // The set with so many tries for each member.
    pub(crate) fn tried(self, tries: u8) -> Members
        requires { tidy self ≡ true }
        ensures { result ≡ set_of (map (tried tries) (members_of self)) }
    {
        let mut all = Members::none();
        for member in self.held() {
            all = all.with(member.tried(tries));
        }
        all
    }
}
