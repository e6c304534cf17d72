// The groups of vectors, by the rules that they look at.
use std::fmt;

// A group, by its number in a vector.
#[derive(Clone, Copy)]
pub(crate) enum Group {
    Cells = 1,
    Refusals,
    Fields,
    Orders,
    Unsound,
    Images,
    Buffers,
    Runs,
    Histories,
    Tries,
    Last,
    Kinds,
    Rescues,
}

// All groups, in the order of their numbers.
pub(crate) const GROUPS: [Group; 13] = [
    Group::Cells,
    Group::Refusals,
    Group::Fields,
    Group::Orders,
    Group::Unsound,
    Group::Images,
    Group::Buffers,
    Group::Runs,
    Group::Histories,
    Group::Tries,
    Group::Last,
    Group::Kinds,
    Group::Rescues,
];

impl Group {
    // The group of this number, if one has it.
    pub(crate) fn numbered(number: u8) -> Option<Group> {
        GROUPS.into_iter().find(|group| *group as u8 == number)
    }
}

impl fmt::Display for Group {
    fn fmt<W: fmt::Write>(&self, f: &mut fmt::Formatter<W>) -> fmt::Result {
        f.write_str(match self {
            Group::Cells => "cells",
            Group::Refusals => "refusals",
            Group::Fields => "fields",
            Group::Orders => "orders",
            Group::Unsound => "unsound",
            Group::Images => "images",
            Group::Buffers => "buffers",
            Group::Runs => "runs",
            Group::Histories => "histories",
            Group::Tries => "tries",
            Group::Last => "last",
            Group::Kinds => "kinds",
            Group::Rescues => "rescues",
        })
    }
}
