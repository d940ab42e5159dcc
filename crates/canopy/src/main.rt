// The program `canopy`: document 01, "The program `canopy`".
//
// It reads a job from standard input, makes the call `report` and no other, and writes the text.
#![tactic(auto)]

use report::report;
use std::io;

// Where a read of standard input fails, the file is what was read before.
fn main(rt: HostRuntime) -> io::Result<()> {
    job_tool::with_input(&rt, |file| {
        let mut text = [0u8; 4096];
        let count = report(file, &mut text);
        rt.write_all(&text[..count])
    })
}
