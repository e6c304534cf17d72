// What `resheftal` prints a piece at a time.
use crate::front;
use std::io;

// How far a log is told.
pub(crate) trait Pieces: Copy {
    // How long the last piece is.
    fn length(self) -> usize;

    // Whether another follows.
    fn more(self) -> bool;

    // The next piece of the same log.
    fn next(self, log: &[u8], out: &mut [u8]) -> Self;
}

// Prints all that is told of a log after its first piece, which stands in the room. Each record has a byte, so that there are no more
// lines than bytes; one turn more tells the stop.
pub(crate) fn tell_pieces<T: Pieces>(
    rt: &HostRuntime,
    first: T,
    log: &[u8],
    out: &mut [u8],
) -> io::Result<T> {
    let mut told = first;
    rt.write_all(front(out, told.length()))?;
    for _ in 0..=log.len() {
        if !told.more() {
            break;
        }
        told = told.next(log, out);
        rt.write_all(front(out, told.length()))?;
    }
    Ok(told)
}
