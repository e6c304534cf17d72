// The command `marks`: the marks of a log made, compared with those of a file, or extended.
use crate::commands::keep;
use crate::files::{Failed, front, read_output};
use crate::say::{Status, conclude, tell};
use marks::build::{build, extend};
use marks::mark::MARK_SIZE;
use place::limits::Limits;
use streams::buffer;
use tools::marked::{built_text, compared_text, extended_text, odd_text};

// What marks are asked for: those of a box with this start and of this log, under the name that the word of this number is, extended or
// not.
#[derive(Clone, Copy)]
pub(crate) struct Marking<'a> {
    pub(crate) limits: Limits,
    pub(crate) log: &'a [u8],
    pub(crate) output: usize,
    pub(crate) extends: bool,
}

impl Marking<'_> {
    fn make(self, rt: &HostRuntime, room: &mut [u8]) -> Result<Status, Failed> {
        let marked = build(self.limits, self.log, room);
        let mut out = buffer();
        let told = built_text(self.limits, self.log, marked, &mut out);
        let made = front(room, told.bytes);
        keep(rt, self.output, marked.code, made, front(&out, told.length))
    }

    fn compare(self, rt: &HostRuntime, held: &[u8], room: &mut [u8]) -> Result<Status, Failed> {
        let marked = build(self.limits, self.log, room);
        let mut out = buffer();
        let told = compared_text(self.limits, self.log, marked, room, held, &mut out);
        tell(rt, told, &out)
    }

    // Extends the marks that so many bytes of a room are, if they are whole.
    fn lengthen(self, rt: &HostRuntime, bytes: usize, room: &mut [u8]) -> Result<Status, Failed> {
        let mut out = buffer();
        if bytes % MARK_SIZE != 0 {
            let n = odd_text(self.limits, bytes, &mut out);
            return conclude(rt, false, front(&out, n));
        }
        let held = bytes / MARK_SIZE;
        let marked = extend(self.limits, self.log, held, room);
        let told = extended_text(self.limits, self.log, held, marked, &mut out);
        let made = front(room, told.bytes);
        keep(rt, self.output, marked.code, made, front(&out, told.length))
    }

    fn mark_in(
        self,
        rt: &HostRuntime,
        held: &mut [u8; 192513],
        room: &mut [u8; 192512],
    ) -> Result<Status, Failed> {
        match read_output(rt, self.output, held)? {
            None => self.make(rt, room),
            Some(bytes) if self.extends => self.lengthen(rt, bytes, held),
            Some(bytes) => self.compare(rt, front(held, bytes), room),
        }
    }

    // Makes the marks, or extends or compares those that are there. The room for marks is that of the longest log; that for those that are
    // there is a byte more.
    pub(crate) fn mark(self, rt: &HostRuntime) -> Result<Status, Failed> {
        let mut held = [0u8; 192513];
        let mut room = [0u8; 192512];
        self.mark_in(rt, &mut held, &mut room)
    }
}
