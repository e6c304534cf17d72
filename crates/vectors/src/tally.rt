// The count of vectors, and the report of it.
use crate::file::Judge;
use crate::group::{GROUPS, Group};
use crate::vector::{group_of, holds};
use std::{fmt, io};

// The most failures that are named.
const MOST_NAMED: u64 = 1000;

// Vectors judged, and failed among them.
#[derive(Clone, Copy, Default)]
struct Count {
    judged: u64,
    failed: u64,
}

// Vectors of each group, of no group, and in all.
#[derive(Clone, Copy, Default)]
pub struct Tally {
    groups: [Count; 13],
    ungrouped: Count,
    all: Count,
}

impl Count {
    fn add(&mut self, holds: bool) {
        self.judged = self.judged.saturating_add(1);
        if !holds {
            self.failed = self.failed.saturating_add(1);
        }
    }
}

impl fmt::Display for Count {
    fn fmt<W: fmt::Write>(&self, f: &mut fmt::Formatter<W>) -> fmt::Result {
        let Count { judged, failed } = *self;
        write!(f, "{judged} failed {failed}")
    }
}

impl Tally {
    // One vector more; a failure is named at once, unless a thousand are.
    fn add<P: Print>(&mut self, out: &P, group: Option<Group>, holds: bool) -> io::Result<()> {
        match group {
            Some(group) => self.groups[group as usize - 1].add(holds),
            None => self.ungrouped.add(holds),
        }
        self.all.add(holds);
        if holds || self.all.failed > MOST_NAMED {
            return Ok(());
        }
        let vector = self.all.judged;
        let number = group.map_or(0, |group| group as u8);
        println!(out; "failed vector {vector} group {number}")
    }
}

impl Judge for Tally {
    fn judge<P: Print>(&mut self, out: &P, vector: &[u8]) -> io::Result<()> {
        self.add(out, group_of(vector), holds(vector))
    }

    fn cut_off<P: Print>(&mut self, out: &P) -> io::Result<()> {
        self.add(out, None, false)
    }

    // A line for each group, one for the vectors of no group where there are any, and the sum.
    fn report<P: Print>(&self, out: &P) -> io::Result<()> {
        for (group, count) in GROUPS.iter().zip(self.groups.iter()) {
            println!(out; "{group} {count}")?;
        }
        let ungrouped = self.ungrouped;
        if ungrouped.judged > 0 {
            println!(out; "ungrouped {ungrouped}")?;
        }
        let all = self.all;
        println!(out; "all {all}")
    }
}
