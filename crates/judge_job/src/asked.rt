// What is asked of a file, and the lines that answer.
use crate::arguments::{id_of, is_id};
use crate::words::explain;
use causes::Refusal;
use clauses::Verdict;
use job_tool::{Pieces, StandardError, write_argument, write_name, write_refusal};
use std::env::Env;
use std::io;

// A file with the place of its name among the arguments, which are `count`. The ids that are asked for stand behind the name.
#[derive(Clone, Copy)]
pub(crate) struct Asked<'a, R> {
    pub(crate) rt: &'a R,
    pub(crate) file: &'a [u8],
    pub(crate) name: usize,
    pub(crate) count: usize,
}

impl<R: Env + Print + StandardError> Asked<'_, R> {
    // Answers for the ids behind the name, or, where there are none, for all that the file has.
    pub(crate) fn answer(&self) -> io::Result<()> {
        if is_id(self.rt, self.name.saturating_add(1)) {
            self.answer_pairs()
        } else {
            self.answer_all()
        }
    }

    // Answers for the ids two by two, up to the next name.
    fn answer_pairs(&self) -> io::Result<()> {
        let ids = (self.name..self.count)
            .skip(1)
            .take_while(|i| is_id(self.rt, *i));
        for pane in ids.step_by(2) {
            self.answer_pair(pane, pane.saturating_add(1))?;
        }
        Ok(())
    }

    // Answers for the ids that arguments `pane` and `glass` are, or says what is wrong with them.
    fn answer_pair(&self, pane: usize, glass: usize) -> io::Result<()> {
        let Some(pane_id) = id_of(self.rt, pane) else {
            return self.write_about(pane, "is not an id");
        };
        let Some(glass_id) = id_of(self.rt, glass) else {
            return self.write_about(pane, "has no glass id beside it");
        };
        let answer = clauses::verdict(self.file, pane_id, glass_id);
        self.write_answer(pane_id, glass_id, answer)?;
        // a single question: the program's name, a file's and two ids
        if self.count == 4 {
            explain(self.rt, answer);
        }
        Ok(())
    }

    // Answers for every pane of the file with every glass, in file order.
    fn answer_all(&self) -> io::Result<()> {
        match job_file::read_job(self.file) {
            Ok(job) => {
                for pane in job.panes() {
                    for glass in job.glasses() {
                        let answer = clauses::verdict(self.file, pane.id, glass.id);
                        self.write_answer(pane.id, glass.id, answer)?;
                    }
                }
                Ok(())
            }
            Err(refusal) => {
                write_name(self.rt, self.name)?;
                write_refusal(self.rt, refusal)
            }
        }
    }

    // The line of a question: `passes`, `fails CLAUSE` or `refused NUMBER OFFSET`.
    fn write_answer(
        &self,
        pane: u32,
        glass: u32,
        answer: Result<Verdict, Refusal>,
    ) -> io::Result<()> {
        let rt = self.rt;
        write_name(rt, self.name)?;
        print!(Pieces { rt }; "{pane} {glass} ")?;
        match answer {
            Ok(Verdict::Passes) => println!(rt; "passes"),
            Ok(Verdict::Fails(clause)) => println!(Pieces { rt }; "fails {clause}"),
            Err(refusal) => write_refusal(rt, refusal),
        }
    }

    // A line that is about argument `i`.
    fn write_about(&self, i: usize, words: &str) -> io::Result<()> {
        write_name(self.rt, self.name)?;
        write_argument(self.rt, i)?;
        println!(self.rt; " {words}")
    }
}
