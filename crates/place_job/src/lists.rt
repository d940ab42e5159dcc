// The lists that a call is lent, and what stands in them before it and after it.
ghost use Rattle.std.specs.Prelude.{◌≤◌, ◌<◌};

use crate::job::Job;
use std::array;

// The most entries that a list is lent with: more than a file can have panes. A list is lent as C lends one: fixed memory, of which a
// call gets the first entries.
pub(crate) const LONGEST: usize = 300;

// What stands in a list before a call.
#[derive(Clone, Copy, PartialEq)]
pub(crate) enum Filling {
    Zeros,
    // the largest number throughout
    Largest,
    // the ids of the panes, or those of the glasses, again and again
    PaneIds,
    GlassIds,
}

impl Filling {
    pub(crate) const ALL: [Filling; 4] = [
        Filling::Zeros,
        Filling::Largest,
        Filling::PaneIds,
        Filling::GlassIds,
    ];

    pub(crate) fn list(self, job: &Job) -> [u32; LONGEST] {
        match self {
            Filling::Zeros => [0; LONGEST],
            Filling::Largest => [u32::MAX; LONGEST],
            Filling::PaneIds => repeated(&job.panes, 256, |pane| pane.id),
            Filling::GlassIds => repeated(&job.glasses, 64, |glass| glass.id),
        }
    }
}

// The ids of panes or of glasses again and again: `turn` entries to a turn, as many as a file can have, with 0 behind the last.
fn repeated<T, F: Fn(&T) -> u32>(entries: &[T], turn: usize, id: F) -> [u32; LONGEST]
    requires { (0 < turn) × F.IsAlwaysCallable id }
{
    array::from_fn(
        |i|
            requires { (0 < turn) × F.IsAlwaysCallable id }
        { entries.get(i % turn).map_or(0, |entry| id(entry)) },
    )
}

// How long a list is lent.
#[derive(Clone, Copy, PartialEq)]
pub(crate) enum Length {
    JustEnough,
    Longest,
    OneTooFew,
}

impl Length {
    pub(crate) const ALL: [Length; 3] = [Length::JustEnough, Length::Longest, Length::OneTooFew];

    pub(crate) fn for_panes(self, pane_count: usize) -> usize
        ensures { result ≤ 300 }
    {
        let enough = pane_count.min(LONGEST);
        match self {
            Length::JustEnough => enough,
            Length::Longest => LONGEST,
            Length::OneTooFew => enough.saturating_sub(1),
        }
    }
}

// A list that a call is lent: what stood in it before, and what stands in it after.
#[derive(Clone, Copy)]
pub(crate) struct Lent {
    pub(crate) before: [u32; LONGEST],
    pub(crate) after: [u32; LONGEST],
}

impl Lent {
    // Whether the list is as before from the entry `from` on.
    pub(crate) fn is_kept(&self, from: usize) -> bool {
        self.before.get(from..) == self.after.get(from..)
    }
}

// The two lists of a call.
#[derive(Clone, Copy)]
pub(crate) struct Lists {
    pub(crate) answers: Lent,
    pub(crate) group: Lent,
}
