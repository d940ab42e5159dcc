// What a line of a part says: specs/Part.antt.
ghost use Rattle.std.specs.Prelude.{◌≡◌, ◌≤◌, ℕ, T, ◌==◌, find};
ghost use Rattle.job_line.specs.Internal.Steps.{as_found};
ghost use Rattle.job_part.specs.Part.{Form};
ghost use Rattle.job_part.specs.Internal.Entries.{entry_at};

// A glass or a pane.
pub trait Entry: Copy + Default {
    // what the lines of its part are like
    ghost form: { Form Self };

    // The entry that the line at the front of some bytes says, and the bytes behind the line.
    fn read(bytes: &[u8]) -> Option<(Self, &[u8])>
        ensures { as_found result ≡ entry_at form bytes.now };

    fn id(&self) -> u32
        ensures { result ≡ form.id self.now };

    // Whether each number is among its allowed values.
    fn is_allowed(&self) -> bool
        ensures { result ≡ form.allowed self.now };

    ghost id_high: { (x : Self) → T (form.allowed x) → form.id x ≤ 9999 };
}

// The first entry that has this id, where there is one. It stands at the place of the id among the entries' ids: proofs/Places.antt.
pub fn find_by_id<E: Entry>(entries: &[E], id: u32) -> Option<E>
    ensures { result ≡ find (λ x. E.form.id x == id) entries.now }
{
    entries.iter().copied().find(|entry| entry.id() == id)
}
