// The commands `judge`, `produce` and `state`: what is asked of a file told, and what was made of it kept.
use crate::files::{DASH, Failed, complain, front, read_named, replace};
use crate::say::{Status, say, status_of, tell};
use judge::produce::produce;
use place::limits::Limits;
use streams::buffer;
use streams::words::word;
use tools::judged::judge_text;
use tools::made::produce_text;
use tools::stepped::{marked_state_text, state_text};
use wire::refusal::ACCEPTED;

// Judges a sheet.
pub(crate) fn judge(rt: &HostRuntime, limits: Limits, sheet: &[u8]) -> Result<Status, Failed> {
    let mut out = buffer();
    let told = judge_text(limits, sheet, &mut out);
    tell(rt, told, &out)
}

// Keeps what was made, where it was not refused, under the name that the word of this number is, and tells of it; where what was made goes
// to standard output, the words go to standard error.
pub(crate) fn keep(
    rt: &HostRuntime,
    output: usize,
    code: u8,
    made: &[u8],
    words: &[u8],
) -> Result<Status, Failed> {
    let mut name = buffer();
    let n = word(rt, output, &mut name);
    let path = front(&name, n);
    let accepted = code == ACCEPTED;
    let outside = path == DASH;
    if accepted {
        if outside {
            say(rt, made)?;
        } else {
            replace(rt, path, made)?;
        }
    }
    if outside {
        complain(rt, words);
    } else {
        say(rt, words)?;
    }
    Ok(status_of(accepted))
}

// Makes the sheet of a log in a room.
fn produce_in(
    rt: &HostRuntime,
    limits: Limits,
    log: &[u8],
    output: usize,
    room: &mut [u8; 1048576],
) -> Result<Status, Failed> {
    let made = produce(limits, log, room);
    let mut out = buffer();
    let n = produce_text(limits, log, made, &mut out);
    keep(
        rt,
        output,
        made.code,
        front(room, made.written),
        front(&out, n),
    )
}

// Makes the sheet of a log. The room for it is the longest sheet.
pub(crate) fn make_sheet(
    rt: &HostRuntime,
    limits: Limits,
    log: &[u8],
    output: usize,
) -> Result<Status, Failed> {
    let mut room = [0u8; 1048576];
    produce_in(rt, limits, log, output, &mut room)
}

// Finds the state after a record of a log from the nearest of the marks that the word of this number names.
fn find_in(
    rt: &HostRuntime,
    limits: Limits,
    log: &[u8],
    record: usize,
    marks: usize,
    room: &mut [u8; 192513],
) -> Result<Status, Failed> {
    let n = read_named(rt, marks, room)?;
    let mut out = buffer();
    let told = marked_state_text(limits, log, front(room, n), record, &mut out);
    tell(rt, told, &out)
}

// Finds the state after a record of a log, from the start or from the nearest of the marks that the word of this number names. The room for
// marks is a byte more than those of the longest log.
pub(crate) fn find(
    rt: &HostRuntime,
    limits: Limits,
    log: &[u8],
    record: usize,
    marks: Option<usize>,
) -> Result<Status, Failed> {
    let Some(marks) = marks else {
        let mut out = buffer();
        let told = state_text(limits, log, record, &mut out);
        return tell(rt, told, &out);
    };
    let mut room = [0u8; 192513];
    find_in(rt, limits, log, record, marks, &mut room)
}
