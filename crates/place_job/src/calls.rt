// The calls that a file is tried with, and the refusal that is due from each: document 01, "What each cause gives".
use crate::job::Job;
use crate::lists::{Filling, Length, Lent, Lists};
use crate::rules::{Outcome, Placed, Rule};
use causes::{Cause, Refusal};
use row_placing::PlaceCounts;

// How the two lists of a call are filled, both alike, and how long each is.
#[derive(Clone, Copy, PartialEq)]
struct Call {
    filling: Filling,
    group: Length,
    answers: Length,
}

// The call whose outcome stands for all, where none is wrong.
const PLAIN: Call = Call {
    filling: Filling::Zeros,
    group: Length::JustEnough,
    answers: Length::JustEnough,
};

// Makes every call with a file, the plain one last.
pub(crate) fn try_file(job: &Job) -> Result<Outcome, Rule> {
    for filling in Filling::ALL {
        for group in Length::ALL {
            for answers in Length::ALL {
                let call = Call {
                    filling,
                    group,
                    answers,
                };
                if call != PLAIN {
                    call.try_with(job)?;
                }
            }
        }
    }
    PLAIN.try_with(job)
}

impl Call {
    // Makes the call, and holds what comes of it to the rules. A refused call writes no list.
    fn try_with(self, job: &Job) -> Result<Outcome, Rule> {
        let (placed, lists) = self.make(job);
        match (placed, self.due(job)) {
            (Ok(counts), Ok(())) => {
                let lists = &lists;
                Placed { job, counts, lists }.check()
            }
            (Err(refusal), Err(due)) if refusal == due => {
                Rule::RefusedLists.check(lists.answers.is_kept(0) && lists.group.is_kept(0))?;
                Ok(Outcome::Refused(refusal))
            }
            _ => Err(Rule::Refusal),
        }
    }

    // Makes the call with the first entries of two lists.
    fn make(self, job: &Job) -> (Result<PlaceCounts, Refusal>, Lists) {
        let pane_count = job.panes.len();
        let before = self.filling.list(job);
        let lent = Lent {
            before,
            after: before,
        };
        let mut lists = Lists {
            answers: lent,
            group: lent,
        };
        let placed = placing::place(
            job.file,
            &mut lists.answers.after[..self.answers.for_panes(pane_count)],
            &mut lists.group.after[..self.group.for_panes(pane_count)],
        );
        (placed, lists)
    }

    // What is due: the file's own refusal, or else one where a list is too short.
    fn due(self, job: &Job) -> Result<(), Refusal> {
        job.due?;
        let pane_count = job.panes.len();
        if self.answers.for_panes(pane_count) < pane_count
            || self.group.for_panes(pane_count) < pane_count
        {
            return Err(Cause::ListTooShort.at(0));
        }
        Ok(())
    }
}
