// A part, line by line: specs/Part.antt.
ghost use Rattle.std.specs.Prelude.{◌≡◌, ◌≤◌, ℕ, List, [], length, IfErr};
ghost use Rattle.ids.specs.Internal.IdSets.{SetOf};
ghost use Rattle.job_part.specs.Part.{judged};
ghost use Rattle.job_part.specs.Internal.Entries.{as_judged, PartRead};

use crate::Entry;
use arrayvec::ArrayVec;
use causes::{Cause, Refusal};
use ids::IdSet;

// Reads the part that ends at the file's offset `end`, and puts the entries before its first fault into a list, in place of what it has.
// Each turn takes a line off the front, or ends the part. The caller's list is filled: where the list was returned it was copied, a small
// file took three times as long, and `check` missed the bar of bench/run.
#[tactic(auto, using(crate::proofs::Parts::by_lines))]
pub fn read_part<E: Entry, const N: usize>(
    part: &[u8],
    end: usize,
    entries: &mut ArrayVec<E, N>,
) -> Result<(), Refusal>
    requires most { E.form.most ≡ N }
    requires within { length part.now ≤ end }
    ensures { PartRead E.form end part.now entries.new.items result }
{
    entries.clear();
    let mut seen = IdSet::new();
    let mut rest = part;
    while !rest.is_empty() {
        let offset = end - rest.len();
        if entries.is_full() {
            return Err(Cause::TooManyLines.at(offset));
        }
        let (entry, behind) = judge::<E>(rest, offset, &seen)?;
        entries.push(entry);
        seen.insert(entry.id());
        rest = behind;
    }
    Ok(())
}

// The line at the front of some bytes, behind lines whose ids are in a set: its entry and the bytes behind it, or its cause. The line
// begins at this offset of the file.
#[tactic(auto, using(crate::proofs::Judging::by_tests))]
fn judge<'a, E: Entry>(
    bytes: &'a [u8],
    offset: usize,
    seen: &IdSet,
) -> Result<(E, &'a [u8]), Refusal>
    ensures cause { (ids : List ℕ) → SetOf seen.now ids → as_judged result ≡ judged E.form ids bytes.now }
    ensures offset { IfErr result (λ refusal. refusal.offset ≡ offset) }
{
    let (entry, behind) = E::read(bytes).ok_or(Cause::LineForm.at(offset))?;
    if !entry.is_allowed() {
        return Err(Cause::NumberValue.at(offset));
    }
    if seen.contains(entry.id()) {
        return Err(Cause::RepeatedId.at(offset));
    }
    Ok((entry, behind))
}
