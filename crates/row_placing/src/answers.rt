// The answers: what is written for each pane.
ghost use Rattle.std.specs.Prelude.{◌≡◌, ◌≤◌, length};
ghost use Rattle.basics.specs.Lent.{lent};
ghost use Rattle.row_placing.specs.Internal.Entries.{entry_held};
ghost use Rattle.row_placing.specs.Internal.Steps.{Answered};

// Writes the id of each pane's glass, or 0 where `held` has no number of one, and counts the ids that are not 0. That 0 is the form
// of document 01 and of C. Tried `answers.iter_mut().zip(held)`: the proof didn't close, since nothing is known of what a loop over
// an adapter of `iter_mut` leaves.
pub fn write_answers(held: &[Option<usize>], ids: &[u32], answers: &mut [u32]) -> usize
    requires { length held.now ≤ length answers.old }
    ensures { Answered ids.now held.now
        (lent answers.old answers.new) result }
{
    let mut placed = 0;
    for (pane, number) in held.iter().enumerate() {
        let id = id_held(ids, *number);
        answers[pane] = id;
        placed += usize::from(id != 0);
    }
    placed
}

// The id of the glass that a pane holds, or 0 where it holds none.
fn id_held(ids: &[u32], number: Option<usize>) -> u32
    ensures { result ≡ entry_held ids.now number }
{
    number
        .and_then(|place| ids.get(place).copied())
        .unwrap_or(0)
}
