// The placing over rows: documents 01 and 02, "The placing".
//
// `place_rows` gives panes sheets. It knows of no file and no clause: panes of any kind bring a row and an id each, glasses their
// sheets and ids. specs/Internal/Promise.antt says what it gives.
#![tactic(auto)]

mod answers;
mod group;

ghost use Rattle.std.specs.Prelude.{◌≡◌, ◌≤◌, length};
ghost use Rattle.basics.specs.Lent.{lent};
ghost use Rattle.row_placing.specs.Internal.Promise.{RowsGlazed};

use answers::write_answers;
use group::write_group;
use matching::match_panes;

// How many panes there are, how many were given a glass and how many the short group has.
#[derive(Clone, Copy)]
pub struct PlaceCounts {
    pub wanted: usize,
    pub placed: usize,
    pub group: usize,
}

// Writes the id of a glass, or 0, for each pane, and the ids of a short group, from the lowest up, where a pane is left with 0.
// `held` gets the number of each pane's glass. It asks for no more than lists that are long enough. The lists stay apart: the search
// reads the rows and the sheets alone, the answers only ids of glasses, and a list of pairs would be taken apart again for them.
pub fn place_rows(
    rows: &[u64],
    sheets: &[u32; 64],
    glass_ids: &[u32; 64],
    pane_ids: &[u32],
    held: &mut [Option<usize>],
    answers: &mut [u32],
    group: &mut [u32],
) -> PlaceCounts
    requires { (length rows.now ≤ length pane_ids.now) × (length held.old ≡ length rows.now)
        × (length rows.now ≤ length answers.old) × (length rows.now ≤ length group.old) }
    ensures { RowsGlazed rows.now sheets.now glass_ids.now pane_ids.now
        held.new result (lent answers.old answers.new)
        (lent group.old group.new) }
{
    let tight = match_panes(rows, *sheets, held);
    let placed = write_answers(held, glass_ids, answers);
    let wanted = rows.len();
    let group_length = if placed == wanted {
        0
    } else {
        write_group(rows, tight, pane_ids, group)
    };
    PlaceCounts {
        wanted,
        placed,
        group: group_length,
    }
}
