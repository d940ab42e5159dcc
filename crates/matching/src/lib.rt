// The greatest matching of panes and glasses: document 01, "The placing".
//
// `match_panes` takes a row of bits for each pane, one for each glass that passes for it, and the sheets of each glass. It
// knows of no file and no verdict; specs/Internal/Matching.antt says what it gives.
#![tactic(auto)]

mod holders;
mod search;
mod stock;

ghost use Rattle.std.specs.Prelude.{◌≡◌, length};
ghost use Rattle.glass_set.specs.Internal.Member.{has};
ghost use Rattle.matching.specs.Internal.Matching.{Greatest};
ghost use Rattle.matching.specs.Internal.Rows.{task_of, way_of, GlassesOrNone};

use search::Search;
use stock::Stock;

// Gives each pane the number of a glass, counted from 0, or none, so that no way to give them serves more. The answer is a set of
// tight glasses: the panes that can have none but these are more than their sheets by as many as have no glass. It is empty where
// every pane has one.
//
// Each search is among the panes up to the one whose turn it is. The later ones hold no glass, so it would find nothing there; among all
// panes it took up to 1.3 times as long.
//
// The rows and what the panes hold stay two lists, by a form that document 01 names: a row is one word a pane, and is only read. The panes
// are gone through by number, which is what a search is given.
pub fn match_panes(rows: &[u64], sheets: [u32; 64], held: &mut [Option<usize>]) -> u64
    requires { length held.old ≡ length rows.now }
    ensures greatest { Greatest (task_of rows.now sheets) (way_of held.new) (has result) }
    ensures entries { GlassesOrNone rows.now held.new }
{
    held.fill(None);
    let mut stock = Stock::new(sheets);
    let mut tight = 0;
    for pane in 0..rows.len() {
        let search = Search {
            rows: &rows[..=pane],
            spare: stock.spare(),
        };
        match search.serve(&mut held[..=pane], pane, tight) {
            Ok(last) => stock.take(last),
            Err(stuck) => tight = stuck.seen,
        }
    }
    tight
}
