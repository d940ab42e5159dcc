// The library for C: include/bordavina.h. Each call is that of a crate below, with its promise; results are structs of numbers,
// by specs/Results.antt.
#![tactic(auto)]

mod results;

ghost use Rattle.std.specs.Prelude.{◌≡◌};
ghost use Rattle.job_file.specs.File.{outcome_of};
ghost use Rattle.job_file.specs.CheckAnswer.{check_answer};
ghost use Rattle.clauses.specs.VerdictAnswer.{verdict_answer};
ghost use Rattle.report.specs.Reported.{Reported};
ghost use Rattle.bordavina.specs.Results.{check_result, verdict_result, PlacedAs};

use clauses::verdict;
use job_file::check;
use placing::place;
use report::report;
pub use results::{CheckResult, PlaceResult, VerdictResult};

// Whether a file is accepted.
#[unsafe(no_mangle)]
pub extern "C" fn bordavina_check(file: &[u8]) -> CheckResult
    ensures { result ≡ check_result (check_answer (outcome_of file.now)) }
{
    check(file).into()
}

// Whether the glass of that id may be used for the pane of that id.
#[unsafe(no_mangle)]
pub extern "C" fn bordavina_verdict(file: &[u8], pane: u32, glass: u32) -> VerdictResult
    ensures { result ≡ verdict_result (verdict_answer (outcome_of file.now) pane glass) }
{
    verdict(file, pane, glass).into()
}

// Gives the panes of a file sheets: the answers, the counts and a short group, from its lowest id up.
#[unsafe(no_mangle)]
pub extern "C" fn bordavina_place(
    file: &[u8],
    answers: &mut [u32],
    short_group: &mut [u32],
) -> PlaceResult
    ensures { PlacedAs (outcome_of file.now) result answers.old answers.new
        short_group.old short_group.new }
{
    place(file, answers, short_group).into()
}

// Writes the text that `canopy` prints of a file, and answers how many bytes it has.
#[unsafe(no_mangle)]
pub extern "C" fn bordavina_report(file: &[u8], text: &mut [u8; 4096]) -> usize
    ensures { Reported (outcome_of file.now) text.old text.new result }
{
    report(file, text)
}
