// The search for a chain of moves, by which a pane gets a sheet that others make room for: document 01, "The placing".
//
// `serve` and `free` call each other. A glass that is looked at goes into the set `seen`, and none that is in it is looked at
// again, so the number of unvisited glasses falls with every link, and no chain has more links than there were such glasses.
// specs/Internal/Steps.antt says what each call leaves. Both give the glass whose spare sheet was taken at the end of the chain.
ghost use Rattle.matching.specs.Internal.Steps.{Servable, Serves, Freeable, Frees};

use crate::holders::next_holder;
use glass_set::{both, find_first, minus, with};

// There is no chain of moves: all the glasses that were seen.
#[derive(Clone, Copy)]
pub struct Stuck {
    pub seen: u64,
}

// What a search reads: a row for each pane, and the glasses with a sheet to spare. The glasses that panes hold, which it changes,
// are lent beside it: were they a field, each call would have to promise that the rows and the spare glasses stay. The glasses seen are an
// argument too, since each call is given more of them and hands them back in `Stuck`.
#[derive(Clone, Copy)]
pub struct Search<'a> {
    pub rows: &'a [u64],
    pub spare: u64,
}

impl Search<'_> {
    // Gives a pane a glass that is not in `seen`: one with a sheet to spare, or else one that another pane can leave.
    #[cycle(free_serve)]
    pub fn serve(&self, held: &mut [Option<usize>], pane: usize, seen: u64) -> Result<usize, Stuck>
        requires { Servable self.now.rows.now held.old pane seen }
        ensures { Serves self.now.rows.now held.old held.new pane self.now.spare seen result }
    {
        let row = self.rows[pane];
        if let Some(glass) = find_first(minus(both(row, self.spare), seen)) {
            held[pane] = Some(glass);
            return Ok(glass);
        }
        let mut marked = seen;
        while let Some(glass) = find_first(minus(row, marked)) {
            match self.free(held, glass, with(marked, glass)) {
                Ok(last) => {
                    held[pane] = Some(glass);
                    return Ok(last);
                }
                Err(stuck) => marked = stuck.seen,
            }
        }
        Err(Stuck { seen: marked })
    }

    // Takes one of the panes that hold a glass over to another glass, which is not in `seen`. The next is looked for after each search,
    // since it may change what the panes hold.
    #[cycle(free_serve)]
    pub fn free(&self, held: &mut [Option<usize>], glass: usize, seen: u64) -> Result<usize, Stuck>
        requires { Freeable self.now.rows.now held.old glass seen }
        ensures { Frees self.now.rows.now held.old held.new glass self.now.spare seen result }
    {
        let mut grown = seen;
        let mut from = 0;
        while let Some(pane) = next_holder(held, glass, from) {
            match self.serve(held, pane, grown) {
                Ok(last) => return Ok(last),
                Err(stuck) => grown = stuck.seen,
            }
            from = pane + 1;
        }
        Err(Stuck { seen: grown })
    }
}
