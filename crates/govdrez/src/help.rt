use season_log::FORMS;
use std::io;

/// Prints what `govdrez --help` tells.
pub fn print_help(rt: &impl Print) -> io::Result<()> {
    rt.print(USAGE)?;
    for form in &FORMS {
        println!(rt; "  {:<19}{}", form.written, form.does)?;
    }
    rt.print(NOTES)
}

// Before the lines of the other calls: `open` is told in two.
const USAGE: &str = "\
usage: govdrez [FILE]

Replays a season log, from FILE or from standard input: carries out each call on
a yard of replicas, and prints each line again with what it is answered.

  open KIND PAYLOAD BERTHS WORD...  KIND is tree or vector, PAYLOAD valve or ticket;
                                    a WORD for each file, its opening payload
";

const NOTES: &str = "
Berths and files count from 0. A valve is shut, open, part:1 to part:99, or
flow:0 to flow:9999; a ticket is 64 hexadecimal digits in lower case, a colon and
a length.
Blank lines and lines that begin with # are passed over. A line that is no call
ends the run with status 1.
";
