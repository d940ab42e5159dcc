// Which panes hold a glass. A search asks it at each link of a chain, and spends nearly all its time on it.
ghost use Rattle.std.specs.Prelude.{◌≤◌, length};
ghost use Rattle.matching.specs.Internal.Holders.{NextHolder};

// How many entries are looked at in a row. Each takes two tests, of whether it has a number and of the number. A loop over single entries
// takes a third at each, of its end; over blocks of a fixed size that is one test a block, which saves a search an eighth to a quarter of
// its time. Blocks of 4 or 16 gain about the same.
const BLOCK: usize = 8;

// The first pane from a number on that holds a glass, if one does.
pub fn next_holder(held: &[Option<usize>], glass: usize, from: usize) -> Option<usize>
    requires { from ≤ length held.now }
    ensures { NextHolder held.now glass from result }
{
    let mut start = from;
    while BLOCK <= held.len() - start {
        if let Some(at) = first_holder(&held[start..start + BLOCK], glass) {
            return Some(start + at);
        }
        start += BLOCK;
    }
    let at = first_holder(&held[start..], glass)?;
    Some(start + at)
}

// The first of some entries that has a glass.
fn first_holder(entries: &[Option<usize>], glass: usize) -> Option<usize>
    ensures { NextHolder entries.now glass 0 result }
{
    entries.iter().position(|entry| *entry == Some(glass))
}
