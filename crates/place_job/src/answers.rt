// The rules on the answers: placed counts those that are not 0; no glass is given more often than it has sheets; each answer
// other than 0 is a glass that passes for its pane; where a pane has 0, the sheets of all its passing glasses are given away;
// later entries are unchanged. 0 stands for no glass in the lists that document 01 and C have.
use crate::rules::{Placed, Rule};

impl Placed<'_> {
    pub(crate) fn check_answers(&self) -> Result<(), Rule> {
        let pane_count = self.job.panes.len();
        let given = self
            .lists
            .answers
            .after
            .iter()
            .take(pane_count)
            .filter(|id| **id != 0)
            .count();
        Rule::Placed.check(self.counts.placed == given)?;
        Rule::Stock.check(self.are_within_stocks())?;
        Rule::Answers.check(self.are_passing())?;
        Rule::Spare.check(!self.is_sheet_spare())?;
        Rule::LaterEntries.check(self.lists.answers.is_kept(pane_count))
    }

    // How many panes have a glass as their answer that passes for them.
    fn times_given(&self, glass: u32) -> usize {
        self.job
            .panes
            .iter()
            .zip(&self.lists.answers.after)
            .filter(|(pane, answer)| **answer == glass && pane.passing.contains(&glass))
            .count()
    }

    // Whether no glass is given more often than it has sheets.
    fn are_within_stocks(&self) -> bool {
        self.job
            .glasses
            .iter()
            .all(|glass| self.times_given(glass.id) <= glass.stock as usize)
    }

    // Whether each answer other than 0 is a glass that passes for its pane.
    fn are_passing(&self) -> bool {
        self.job.panes.iter().zip(&self.lists.answers.after).all(|(pane, answer)| {
            *answer == 0 || pane.passing.contains(answer)
        })
    }

    // Whether a glass has a sheet left though a pane has 0 that it passes for.
    fn is_sheet_spare(&self) -> bool {
        self.job.glasses.iter().any(|glass| {
            self.times_given(glass.id) < glass.stock as usize && self.is_wanted(glass.id)
        })
    }

    // Whether a pane has 0 that a glass passes for.
    fn is_wanted(&self, glass: u32) -> bool {
        self.job.panes.iter().zip(&self.lists.answers.after).any(|(pane, answer)| {
            *answer == 0 && pane.passing.contains(&glass)
        })
    }
}
