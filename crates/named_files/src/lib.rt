#![tactic(auto)]
// Files shown one after the other, for the programs that show many of what another program shows one of.
use std::fs::File;
use std::io;
use streams::fail;
use streams::files::open_read;

// A way to show what a file holds.
pub trait Shows {
    fn show(rt: &HostRuntime, file: &mut File) -> io::Result<()>;
}

// Shows each file of a row of names and paths: its name on a line, then what it holds. One that cannot be opened is told on standard error,
// and the next follows.
pub fn show_each<S: Shows>(rt: &HostRuntime, files: &[(&str, &str)]) -> io::Result<()> {
    for (name, path) in files {
        println!(rt; "{name}")?;
        match open_read(rt, path.as_bytes()) {
            Ok(mut file) => S::show(rt, &mut file)?,
            Err(error) => fail(&rt.stderr(), path.as_bytes(), error)?,
        }
    }
    Ok(())
}
