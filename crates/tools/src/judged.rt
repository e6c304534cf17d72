// What `resheftal judge` prints: the judge's answer to a sheet, in words and bytes.
use crate::standing::{LineAt, Lines, RecordLine, entries_before};
use crate::started::Start;
use crate::text::{Count, Told, put_text};
use crate::words::RefusalLine;
use judge::due::{ANSWER_KIND, Due, Finding, Point};
use judge::judge::{Verdict, judge};
use place::limits::Limits;
use std::fmt;
use std::fmt::{Display, Formatter};
use unit::answer::Action;
use wire::refusal::ACCEPTED;

fn finding_name(stands: Finding) -> &'static str {
    match stands {
        Finding::Right => "right",
        Finding::Wrong => "wrong",
        Finding::Short => "short",
        Finding::Missing => "missing",
    }
}

// Which record is at fault: the event record of this number, its answer, or one of its actions, with so many records behind it before.
#[derive(Clone, Copy)]
struct Which {
    due: Due,
    ordinal: usize,
    behind: usize,
}

impl Display for Which {
    fn fmt<W: fmt::Write>(&self, f: &mut Formatter<W>) -> fmt::Result {
        let Which {
            due,
            ordinal,
            behind,
        } = *self;
        match due {
            Due::AnEvent => write!(f, "event record {ordinal}"),
            Due::TheAnswer(_) => write!(f, "the answer to event record {ordinal}"),
            Due::TheAction(_) => write!(f, "action {behind} of event record {ordinal}"),
        }
    }
}

// The line of a fault: what it is, its offset, the event records before it that stand right with all that follows them, and which record
// it is, with so many records behind its event record.
#[derive(Clone, Copy)]
struct Fault {
    point: Point,
    records: usize,
    behind: usize,
}

impl Display for Fault {
    fn fmt<W: fmt::Write>(&self, f: &mut Formatter<W>) -> fmt::Result {
        let Point { stands, at, due } = self.point;
        let name = finding_name(stands);
        let right = Count(self.records, "right event record", "right event records");
        let which = Which {
            due,
            ordinal: self.records.wrapping_add(1),
            behind: self.behind,
        };
        writeln!(f, "{name} at offset {at}, after {right}: {which}")
    }
}

// What stands at an offset of a sheet.
#[derive(Clone, Copy)]
struct Standing<'a> {
    sheet: &'a [u8],
    offset: usize,
}

impl Display for Standing<'_> {
    fn fmt<W: fmt::Write>(&self, f: &mut Formatter<W>) -> fmt::Result {
        let Standing { sheet, offset } = *self;
        if offset >= sheet.len() {
            return writeln!(f, "here stands nothing: the sheet ends here");
        }
        write!(f, "here stands:\n{}", LineAt { sheet, offset })
    }
}

fn spelt(action: Action) -> [u8; 5] {
    let Action { number, partner } = action;
    [
        number,
        partner.kind,
        partner.high,
        partner.middle,
        partner.low,
    ]
}

// What our box gives at an offset.
#[derive(Clone, Copy)]
struct Given {
    due: Due,
    offset: usize,
}

impl Display for Given {
    fn fmt<W: fmt::Write>(&self, f: &mut Formatter<W>) -> fmt::Result {
        let offset = self.offset;
        match self.due {
            Due::AnEvent => writeln!(
                f,
                "here is due an event record, kind 1 to 11, or the sheet's end"
            ),
            Due::TheAnswer(code) => {
                let bytes = &[ANSWER_KIND, code];
                write!(f, "our box gives:\n{}", RecordLine { offset, bytes })
            }
            Due::TheAction(action) => {
                let bytes = &spelt(action);
                write!(f, "our box gives:\n{}", RecordLine { offset, bytes })
            }
        }
    }
}

// The records of a sheet from an offset up to the fault.
#[derive(Clone, Copy)]
struct Before<'a> {
    sheet: &'a [u8],
    from: usize,
    end: usize,
}

impl Display for Before<'_> {
    fn fmt<W: fmt::Write>(&self, f: &mut Formatter<W>) -> fmt::Result {
        let Before { sheet, from, end } = *self;
        if end == 0 {
            return writeln!(f, "before it stands nothing: the sheet begins here");
        }
        write!(f, "before it stand:\n{}", Lines { sheet, from, end })
    }
}

// A fault: its line, what stands there, what our box gives, and the records before it, from the last whole entry on, and so from before
// the entry that the fault is in.
#[derive(Clone, Copy)]
struct Faulty<'a> {
    sheet: &'a [u8],
    verdict: Verdict,
}

impl Display for Faulty<'_> {
    fn fmt<W: fmt::Write>(&self, f: &mut Formatter<W>) -> fmt::Result {
        let Faulty { sheet, verdict } = *self;
        let Verdict { records, point, .. } = verdict;
        let Point {
            at: offset,
            due,
            ..
        } = point;
        let entries = entries_before(sheet, offset);
        let fault = Fault {
            point,
            records,
            behind: entries.behind,
        };
        let standing = Standing { sheet, offset };
        let given = Given { due, offset };
        let before = Before {
            sheet,
            from: match due {
                Due::AnEvent => entries.last,
                Due::TheAnswer(_) | Due::TheAction(_) => entries.before,
            },
            end: offset,
        };
        write!(f, "{fault}{standing}{given}{before}")
    }
}

// That what was given is the printed sheet, if it is.
fn printed(sheet: &[u8]) -> &'static str {
    if sheet.starts_with(b"rec kind code actions") {
        return "this is a printed sheet, a text that begins with \"rec kind code actions\"; judge takes a sheet's bytes: \
                  event records, each with its answer and its actions behind it\n";
    }
    ""
}

fn put_verdict(out: &mut [u8], at: usize, sheet: &[u8], verdict: Verdict) -> usize {
    if verdict.code == ACCEPTED {
        return put_text(out, at, Faulty { sheet, verdict });
    }
    put_text(out, at, RefusalLine(verdict.code, "the sheet"))
}

// Tells how a sheet is judged from a cold start with these limits: accepted, refused, or the first fault with the records around it.
pub fn judge_text(limits: Limits, sheet: &[u8], out: &mut [u8]) -> Told {
    let verdict = judge(limits, sheet);
    let at = put_text(out, 0, Start(limits));
    let accepted = verdict.code == ACCEPTED && verdict.point.stands.is_right();
    if accepted {
        let records = Count(verdict.records, "event record", "event records");
        let bytes = Count(sheet.len(), "byte", "bytes");
        return Told {
            length: put_text(out, at, format_args!("accepted: {records}, {bytes}\n")),
            accepted,
        };
    }
    let at = put_verdict(out, at, sheet, verdict);
    Told {
        length: put_text(out, at, printed(sheet)),
        accepted,
    }
}
