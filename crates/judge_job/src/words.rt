// What is said to people, on standard error: an answer in plain words, with the number and the name of the clause.
use causes::{Cause, Refusal};
use clauses::Verdict;
use job_tool::{Pieces, StandardError};
use std::fmt;

// Why the glass may not be used; nothing where it may.
pub(crate) fn explain(rt: &impl StandardError, answer: Result<Verdict, Refusal>) {
    match answer {
        Ok(Verdict::Passes) => {}
        Ok(Verdict::Fails(clause)) => explain_clause(rt, clause),
        Err(refusal) => explain_refusal(rt, refusal.cause),
    }
}

fn explain_refusal(rt: &impl StandardError, cause: Cause) {
    let number = u32::from(cause);
    let _ = match cause {
        Cause::NoPane | Cause::NoGlass => eprintln!(Pieces { rt }; "number {number}: {cause}"),
        _ => eprintln!(rt;
            "the file is refused, so nothing of it is judged; check_job says what is wrong with it and where"
        ),
    };
}

// The clause is a number, since `Verdict::Fails(u32)` is the form that document 01 names.
fn explain_clause(rt: &impl StandardError, clause: u32) {
    let _ = match clause {
        1 => eprintln!(rt;
            "clause 1, kind: the pane's highest part is 3000 mm or more above the floor, where toughened glass must be laminated; take a laminated glass"
        ),
        // the newline belongs to the last piece
        2 => eprint!(Pieces { rt };
            "clause 2, size: upright or turned, each side of the sheet must exceed the pane's sight size by two edge covers or more ({}, {}, {}, {}), and this sheet does not; take a larger sheet, or a thinner glass\n",
            Excess(6),
            Excess(8),
            Excess(10),
            Excess(12)
        ),
        3 => eprintln!(rt;
            "clause 3, point load: the span is too long for this kind and thickness to bear a person's weight; take thicker or stronger glass, or divide the pane"
        ),
        _ => eprintln!(rt;
            "clause 4, uniform load: the span is too long for the wind and the glass's own weight; take thicker or stronger glass, or divide the pane"
        ),
    };
}

// By how much a sheet of this thickness must exceed the sight size. The thickness is a number of the line, as in job_glass's `Glass`.
#[derive(Clone, Copy)]
struct Excess(u32);

impl fmt::Display for Excess {
    fn fmt<W: fmt::Write>(&self, f: &mut fmt::Formatter<W>) -> fmt::Result {
        let thick = self.0;
        let excess = 2 * u64::from(cut_size::edge_cover(thick));
        write!(f, "{excess} mm in {thick} mm glass")
    }
}

pub(crate) fn say_usage(rt: &impl Eprint) {
    let _ = eprintln!(rt;
        "usage: judge_job FILE [PANE GLASS].. [FILE [PANE GLASS]..]..; FILE alone asks for every pane with every glass"
    );
}
