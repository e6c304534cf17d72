// The reader: a lent sheet and the offset reached in it. The functions on slice and offset do the work.
ghost use Rattle.std.specs.Prelude.{◌≡◌};
ghost use Rattle.judge.specs.Readers.{opened, moved_to, reader_stands, reader_judged};

use crate::due::{Due, Finding, stands_at};
use crate::judge::{Verdict, judge_from};
use place::limits::Limits;

// A lent sheet and the offset reached.
#[derive(Clone, Copy)]
pub struct Reader<'a> {
    pub sheet: &'a [u8],
    pub at: usize,
}

impl<'a> Reader<'a> {
    // A reader at the beginning of a sheet.
    pub fn open(sheet: &'a [u8]) -> Reader<'a>
        ensures { result ≡ opened sheet.entry }
    {
        Reader { sheet, at: 0 }
    }

    // The reader at another offset.
    pub fn moved(self, at: usize) -> Reader<'a>
        ensures { result ≡ moved_to self.entry at }
    {
        Reader {
            sheet: self.sheet,
            at,
        }
    }

    // What stands at the offset reached, where this is due.
    pub fn stands(self, due: Due) -> Finding
        ensures { result ≡ reader_stands self.entry due }
    {
        stands_at(self.sheet, self.at, due)
    }

    // The judge from the offset reached on.
    pub fn judged(self, limits: Limits) -> Verdict
        ensures { result ≡ reader_judged self.entry limits }
    {
        judge_from(limits, self.sheet, self.at)
    }
}
