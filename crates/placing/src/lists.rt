// What the placing is told of a job's glasses and panes beside the rows: lists of numbers.
ghost use Rattle.std.specs.Prelude.{◌≡◌, ◌≤◌, length, replicate};
ghost use Rattle.basics.specs.Internal.Arrays.{written};
ghost use Rattle.job_file.specs.Entries.{glass_ids_of, pane_ids_of, stocks_of};

use arrayvec::ArrayVec;
use job_glass::Glass;
use job_pane::Pane;
use std::array;

// The stocks and the ids of glasses, and 0 past the last: two arrays, one entry for each bit of a row, since the search reads the
// stocks alone. Their closures differ in a field, for which a function of both would be given a closure again.
#[derive(Drop)]
pub(crate) struct GlassLists {
    pub(crate) stocks: [u32; 64],
    pub(crate) ids: [u32; 64],
}

impl GlassLists {
    pub(crate) fn of(glasses: &[Glass]) -> Self
        requires { length glasses.now ≤ 64 }
        ensures stocks { result.stocks ≡ written (stocks_of glasses.now) (replicate 64 0) }
        ensures ids { result.ids ≡ written (glass_ids_of glasses.now) (replicate 64 0) }
    {
        GlassLists {
            stocks: array::from_fn(|g| glasses.get(g).map_or(0, |glass| glass.stock)),
            ids: array::from_fn(|g| glasses.get(g).map_or(0, |glass| glass.id)),
        }
    }
}

// The ids of panes. They are pushed one by one: `collect` takes an allocator, and with `extend` it answers a `Result` whose error, more
// panes than there is room for, can't occur.
pub(crate) fn pane_ids(panes: &[Pane]) -> ArrayVec<u32, 256>
    requires { length panes.now ≤ 256 }
    ensures { result.items ≡ pane_ids_of panes.now }
{
    let mut ids = ArrayVec::new();
    for pane in panes {
        ids.push(pane.id);
    }
    ids
}
