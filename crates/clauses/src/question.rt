// The answer to a question by the pane and the glass that are found: specs/Internal/Found.antt.
ghost use Rattle.std.specs.Prelude.{◌≡◌};
ghost use Rattle.causes.specs.Answer.{answer_of};
ghost use Rattle.clauses.specs.Internal.Found.{found_answer};

use crate::judging::{Verdict, judge};
use causes::{Cause, Refusal};
use job_glass::Glass;
use job_pane::Pane;

// The verdict of what was found. An unknown pane comes before an unknown glass, and no offset of the file is to blame for either.
pub fn judge_found(pane: Option<Pane>, glass: Option<Glass>) -> Result<Verdict, Refusal>
    ensures { answer_of result ≡ found_answer pane glass }
{
    let pane = pane.ok_or(Cause::NoPane.at(0))?;
    let glass = glass.ok_or(Cause::NoGlass.at(0))?;
    Ok(judge(pane, glass))
}
