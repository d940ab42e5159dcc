// Which glass may be used for which pane, and which clause stands against it: document 01, "The four clauses", with the
// refusals of "What each cause gives".
//
// The arguments are the name of a file and then ids two by two, a pane's and a glass's; and so on with further names. An
// argument that begins with a digit is an id. A line for each question says `NAME: PANE GLASS passes`, `fails CLAUSE` or
// `refused NUMBER OFFSET`. A name with no ids behind it asks for every pane with every glass. The answer to a single question
// is also put in plain words, on standard error.
#![tactic(auto)]

mod arguments;
mod asked;
mod words;

use arguments::is_id;
use asked::Asked;
use std::io;

fn main(rt: HostRuntime) -> io::Result<()> {
    let count = job_tool::argument_count(&rt);
    if count < 2 || is_id(&rt, 1) {
        words::say_usage(&rt);
        return Ok(());
    }
    for name in 1..count {
        if !is_id(&rt, name) {
            job_tool::with_file(&rt, name, |file| {
                Asked {
                    rt: &rt,
                    file,
                    name,
                    count,
                }
                .answer()
            })?;
        }
    }
    Ok(())
}
