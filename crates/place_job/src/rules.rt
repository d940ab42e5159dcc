// The rules that the result of a call keeps: documents 01 and 02, "The placing".
use crate::job::Job;
use crate::lists::Lists;
use causes::Refusal;
use row_placing::PlaceCounts;
use std::fmt;

// What came of a file, or of a call with it, that keeps the rules: all panes were placed, or so many were left over; or a refusal.
#[derive(Clone, Copy)]
pub(crate) enum Outcome {
    Full,
    Short(usize),
    Refused(Refusal),
}

// The rules, each named for what it is about.
#[derive(Clone, Copy)]
pub(crate) enum Rule {
    Refusal,
    RefusedLists,
    Wanted,
    Placed,
    Stock,
    Answers,
    Spare,
    LaterEntries,
    FullGroup,
    EmptyGroup,
    GroupIds,
    GroupSheets,
    GroupShortage,
    GroupOrder,
}

impl Rule {
    // The rule is broken where `is_kept` is false.
    pub(crate) fn check(self, is_kept: bool) -> Result<(), Rule> {
        if is_kept { Ok(()) } else { Err(self) }
    }
}

// How a rule is broken.
impl fmt::Display for Rule {
    fn fmt<W: fmt::Write>(&self, f: &mut fmt::Formatter<W>) -> fmt::Result {
        f.write_str(match self {
            Rule::Refusal => "the call is refused, or not, otherwise than is due",
            Rule::RefusedLists => "a refused call wrote a list",
            Rule::Wanted => "wanted is not the number of panes",
            Rule::Placed => "placed is not the number of answers other than 0",
            Rule::Stock => "a glass is given more often than it has sheets",
            Rule::Answers => "an answer is not a glass that passes for its pane",
            Rule::Spare => "a pane has 0, but a passing glass has a sheet to spare",
            Rule::LaterEntries => "an entry behind the answers or behind the group was written",
            Rule::FullGroup => "all panes are placed, but the group has a count or was written",
            Rule::EmptyGroup => "not all panes are placed, but the group is empty",
            Rule::GroupIds => "a group entry is not the id of a pane, or is there twice",
            Rule::GroupSheets => "the group is not short: its glasses have a sheet for each pane",
            Rule::GroupShortage => "the group lacks fewer or more sheets than panes are left over",
            Rule::GroupOrder => "the ids of the group do not rise from first to last",
        })
    }
}

// What a call that was not refused left: its counts and its lists, beside the job that they are held against.
#[derive(Clone, Copy)]
pub(crate) struct Placed<'a> {
    pub(crate) job: &'a Job<'a>,
    pub(crate) counts: PlaceCounts,
    pub(crate) lists: &'a Lists,
}

impl Placed<'_> {
    // Holds it to the rules.
    pub(crate) fn check(&self) -> Result<Outcome, Rule> {
        Rule::Wanted.check(self.counts.wanted == self.job.panes.len())?;
        self.check_answers()?;
        match self.counts.wanted.saturating_sub(self.counts.placed) {
            0 => {
                self.check_full_group()?;
                Ok(Outcome::Full)
            }
            left_over => {
                self.check_short_group(left_over)?;
                Ok(Outcome::Short(left_over))
            }
        }
    }
}
