// What `resheftal produce` says: the sheet that was made of a log, or why none was.
use crate::log::{StopLine, stopped_at};
use crate::started::Start;
use crate::text::{Count, put_text};
use crate::words::RefusalLine;
use judge::produce::Produced;
use place::limits::Limits;
use wire::refusal::ACCEPTED;

// Tells what was made of this log: the sheet's event records and bytes, and the stop; or the refusal. Answers how long the text is.
pub fn produce_text(limits: Limits, log: &[u8], produced: Produced, out: &mut [u8]) -> usize {
    let at = put_text(out, 0, Start(limits));
    if produced.code != ACCEPTED {
        let refused = RefusalLine(produced.code, "the log, or the sheet made of it,");
        return put_text(out, at, refused);
    }
    let records = Count(produced.records, "event record", "event records");
    let bytes = Count(produced.written, "byte", "bytes");
    let stop = StopLine {
        stop: produced.stop,
        log,
        offset: stopped_at(log, produced.records),
    };
    put_text(out, at, format_args!("made: {records}, {bytes}\n{stop}"))
}
