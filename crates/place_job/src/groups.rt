// The rules on the group. Where all panes are placed, its count is 0 and its list unchanged. Else its entries are the ids of a
// short group: the stocks of all glasses that pass for one of its panes or more, each glass once, add up to less than its panes,
// by as many as are left over. The ids rise.
//
// No way to give out the sheets serves more panes of such a group than it has sheets. So a group that lacks as many as are left over
// shows that none serves more panes of the roof.
use crate::rules::{Placed, Rule};

impl Placed<'_> {
    // The group where all panes are placed.
    pub(crate) fn check_full_group(&self) -> Result<(), Rule> {
        Rule::FullGroup.check(self.counts.group == 0 && self.lists.group.is_kept(0))
    }

    // The group where not all panes are placed. Where it has as many panes as entries, each entry is the id of a pane and none is
    // there twice.
    pub(crate) fn check_short_group(&self, left_over: usize) -> Result<(), Rule> {
        let count = self.counts.group;
        Rule::EmptyGroup.check(0 < count)?;
        let ids = self.lists.group.after.get(..count).ok_or(Rule::GroupIds)?;
        let members = self
            .job
            .panes
            .iter()
            .filter(|pane| ids.contains(&pane.id))
            .count();
        Rule::GroupIds.check(members == count)?;
        let lacking = self.sheets_lacking(ids);
        Rule::GroupSheets.check(0 < lacking)?;
        Rule::GroupShortage.check(lacking == left_over)?;
        Rule::GroupOrder.check(ids.is_sorted_by(|id, next| id < next))?;
        Rule::LaterEntries.check(self.lists.group.is_kept(count))
    }

    // By how many the panes of these ids are more than the sheets of the glasses that pass for them, each glass counted once; 0 where
    // they are not.
    fn sheets_lacking(&self, ids: &[u32]) -> usize {
        self.job
            .glasses
            .iter()
            .filter(|glass| self.is_of_use(glass.id, ids))
            .fold(
                ids.len(),
                |lacking, glass| lacking.saturating_sub(glass.stock as usize),
            )
    }

    // Whether a glass passes for a pane of these ids.
    fn is_of_use(&self, glass: u32, ids: &[u32]) -> bool {
        self.job.panes.iter().any(|pane| pane.passing.contains(&glass) && ids.contains(&pane.id))
    }
}
