// The vectors of a file, each tried and those that differ named.
use std::io;
use vectors::file::{Judge, judge_each};

// The most bytes of a vector.
pub(crate) const LONGEST: usize = 16384;

// How many vectors are tried and how many differ, where each is to pass this test.
#[derive(Drop)]
struct Trial {
    test: fn(&[u8]) -> bool,
    tried: u64,
    differ: u64,
    ghost callable: { IsAlwaysCallable test },
}

impl Judge for Trial {
    // Names a vector that differs by its number in the file, from 0.
    fn judge<P: Print>(&mut self, out: &P, vector: &[u8]) -> io::Result<()> {
        if !(self.test)(vector) {
            let ordinal = self.tried;
            println!(out; "differs: vector {ordinal}")?;
            self.differ = self.differ.wrapping_add(1);
        }
        self.tried = self.tried.wrapping_add(1);
        Ok(())
    }

    // Counts as one that differs.
    fn cut_off<P: Print>(&mut self, _out: &P) -> io::Result<()> {
        self.differ = self.differ.wrapping_add(1);
        Ok(())
    }

    fn report<P: Print>(&self, out: &P) -> io::Result<()> {
        let tried = self.tried;
        let differ = self.differ;
        println!(out; "{tried} vectors, {differ} differ")
    }
}

// Tries all vectors of a file, names those that differ, and writes how many there are; that it cannot be opened is told on standard error.
pub(crate) fn try_file(
    rt: &HostRuntime,
    name: &[u8],
    room: &mut [u8; LONGEST],
    test: fn(&[u8]) -> bool,
) -> io::Result<()>
    requires { IsAlwaysCallable test }
{
    rt.write_all(name)?;
    rt.write_all(b"\n")?;
    let trial = Trial {
        test,
        tried: 0,
        differ: 0,
    };
    judge_each(rt, name, room, trial)
}
