// The check of a job file: document 01, "The job file" and "What each cause gives".
//
// With no arguments the file is standard input, and one line says `accepted GLASSES PANES` or `refused NUMBER OFFSET`. With
// arguments each is the name of a file, and a line for each begins with that name. The refusal of a single file is also put
// in plain words, on standard error.
#![tactic(auto)]

mod place;
mod wind;
mod words;

use job_file::FileCounts;
use job_tool::{Pieces, StandardError, write_name, write_refusal};
use std::io;

fn main(rt: HostRuntime) -> io::Result<()> {
    let count = job_tool::argument_count(&rt);
    if count < 2 {
        return job_tool::with_input(&rt, |file| answer_for(&rt, file, true));
    }
    for i in 1..count {
        job_tool::with_file(&rt, i, |file| {
            write_name(&rt, i)?;
            answer_for(&rt, file, count == 2)
        })?;
    }
    Ok(())
}

// The line `accepted GLASSES PANES` or `refused NUMBER OFFSET`; and of a single file that is refused, why and on which line.
fn answer_for<R: Print + StandardError>(rt: &R, file: &[u8], is_single: bool) -> io::Result<()> {
    match job_file::check(file) {
        Ok(FileCounts { glasses, panes }) => println!(Pieces { rt }; "accepted {glasses} {panes}"),
        Err(refusal) => {
            write_refusal(rt, refusal)?;
            if is_single {
                words::explain(rt, file, refusal);
            }
            Ok(())
        }
    }
}
