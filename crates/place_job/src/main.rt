// Whether `place` keeps what documents 01 and 02 say of it: "The placing", with the refusals of "What each cause gives".
//
// Each argument is the name of a job file, with which the call is made several times. A line for each file says `NAME: full` where
// every pane was placed; `NAME: short by NUMBER`, the panes left over; `NAME: refused NUMBER OFFSET`; or `NAME: wrong: RULE`, the first
// rule that was found broken. The last line counts the files that were read, and those of them that were wrong.
#![tactic(auto)]

mod answers;
mod calls;
mod groups;
mod job;
mod lists;
mod rules;

use job::Job;
use job_tool::{Pieces, StandardError};
use rules::{Outcome, Rule};
use std::io;
use std::rt::{Env, Files};

fn main(rt: HostRuntime) -> io::Result<()> {
    let count = job_tool::argument_count(&rt);
    if count < 2 {
        let _ = eprintln!(rt; "usage: place_job FILE..");
        return Ok(());
    }
    // counted by hand, since each turn writes a line and may fail
    let mut jobs = 0u64;
    let mut wrong = 0u64;
    for i in 1..count {
        if let Some(tried) = try_argument(&rt, i)? {
            jobs += 1;
            if tried.is_err() {
                wrong += 1;
            }
        }
    }
    print!(Pieces { rt: &rt }; "{jobs} jobs, {wrong} wrong\n")
}

// Tries the file that argument `i` names and writes its line. None where the file was not opened or not read.
fn try_argument<R: Env + Files + Print + StandardError>(
    rt: &R,
    i: usize,
) -> io::Result<Option<Result<Outcome, Rule>>> {
    job_tool::with_file(rt, i, |file| {
        job_tool::write_name(rt, i)?;
        let job = Job::of(file);
        let tried = calls::try_file(&job);
        match tried {
            Ok(Outcome::Full) => println!(rt; "full")?,
            Ok(Outcome::Short(left_over)) => println!(Pieces { rt }; "short by {left_over}")?,
            Ok(Outcome::Refused(refusal)) => job_tool::write_refusal(rt, refusal)?,
            Err(rule) => {
                // two pieces: the word, and the line's rest
                print!(rt; "wrong: ")?;
                println!(rt; "{rule}")?;
            }
        }
        Ok(tried)
    })
}
