// A refusal in plain words: a line on standard error with the place in the file, the cause and what to do about it.
use crate::place::line_number;
use crate::wind::line_fault;
use causes::{Cause, Refusal};
use job_tool::{Pieces, StandardError};

pub(crate) fn explain(rt: &impl StandardError, file: &[u8], refusal: Refusal) {
    let Refusal { cause, offset } = refusal;
    let line = line_number(file, offset);
    let number = u32::from(cause);
    let _ = eprint!(Pieces { rt };
        "line {line}, byte {offset} (counted from 0): cause {number}, {cause}"
    );
    match cause {
        Cause::NumberValue => {
            if let Some(fault) = line_fault(file, offset) {
                let _ = eprint!(rt; "; {fault}");
            }
        }
        // the class of a line that begins with `Q` may have been written by its name
        Cause::LineForm if matches!(file.get(offset), Some(b'Q')) => {
            let _ = eprint!(rt; "; the class of a Q line is a number, 2 for N2");
        }
        _ => {}
    }
    let _ = eprintln!(rt);
}
