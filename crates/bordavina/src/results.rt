// Results as structs of numbers, since C has no `Result`: specs/Results.antt. What a case does not use is 0. Each is made from a `Result`
// by a `From` of its own: they share a number and an offset alone, so one generic conversion would be no plainer.
ghost use Rattle.std.specs.Prelude.{◌≡◌};
ghost use Rattle.bordavina.specs.Results.{clause_of};

use causes::Refusal;
use clauses::Verdict;
use job_file::FileCounts;
use row_placing::PlaceCounts;

// Of a check: number 0 and the counts, or a refusal's number and offset.
#[repr(C)]
#[derive(Clone, Copy, Debug, Default, PartialEq, Eq)]
pub struct CheckResult {
    pub number: usize,
    pub offset: usize,
    pub glasses: usize,
    pub panes: usize,
}

// Of a verdict: number 0 and the clause that fails, 0 for none; or a refusal's number and offset.
#[repr(C)]
#[derive(Clone, Copy, Debug, Default, PartialEq, Eq)]
pub struct VerdictResult {
    pub number: usize,
    pub offset: usize,
    pub clause: usize,
}

// Of a placing: number 0 and the counts, or a refusal's number and offset.
#[repr(C)]
#[derive(Clone, Copy, Debug, Default, PartialEq, Eq)]
pub struct PlaceResult {
    pub number: usize,
    pub offset: usize,
    pub wanted: usize,
    pub placed: usize,
    pub group: usize,
}

impl From<Result<FileCounts, Refusal>> for CheckResult {
    ghost use Rattle.std.specs.Prelude.{◌≡◌};
    ghost use Rattle.causes.specs.Answer.{answer_of};
    ghost use Rattle.bordavina.specs.Results.{check_result};

    ghost from_gives = { λ checked result. result ≡ check_result (answer_of checked) };

    fn from(checked: Result<FileCounts, Refusal>) -> CheckResult {
        match checked {
            Ok(counts) => CheckResult {
                glasses: counts.glasses,
                panes: counts.panes,
                ..CheckResult::default()
            },
            Err(refusal) => CheckResult {
                number: u32::from(refusal.cause) as usize,
                offset: refusal.offset,
                ..CheckResult::default()
            },
        }
    }
}

impl From<Result<Verdict, Refusal>> for VerdictResult {
    ghost use Rattle.std.specs.Prelude.{◌≡◌};
    ghost use Rattle.causes.specs.Answer.{answer_of};
    ghost use Rattle.bordavina.specs.Results.{verdict_result};

    ghost from_gives = { λ ruling result. result ≡ verdict_result (answer_of ruling) };

    fn from(ruling: Result<Verdict, Refusal>) -> VerdictResult {
        match ruling {
            Ok(verdict) => VerdictResult {
                clause: clause_of(verdict),
                ..VerdictResult::default()
            },
            Err(refusal) => VerdictResult {
                number: u32::from(refusal.cause) as usize,
                offset: refusal.offset,
                ..VerdictResult::default()
            },
        }
    }
}

impl From<Result<PlaceCounts, Refusal>> for PlaceResult {
    ghost use Rattle.std.specs.Prelude.{◌≡◌};
    ghost use Rattle.causes.specs.Answer.{answer_of};
    ghost use Rattle.bordavina.specs.Results.{place_result};

    ghost from_gives = { λ placed result. result ≡ place_result (answer_of placed) };

    fn from(placed: Result<PlaceCounts, Refusal>) -> PlaceResult {
        match placed {
            Ok(counts) => PlaceResult {
                wanted: counts.wanted,
                placed: counts.placed,
                group: counts.group,
                ..PlaceResult::default()
            },
            Err(refusal) => PlaceResult {
                number: u32::from(refusal.cause) as usize,
                offset: refusal.offset,
                ..PlaceResult::default()
            },
        }
    }
}

// The clause that fails, or 0. It is no `From`: neither `Verdict` nor `usize` is of this crate.
fn clause_of(v: Verdict) -> usize
    ensures { result ≡ clause_of v }
{
    match v {
        Verdict::Passes => 0,
        Verdict::Fails(clause) => clause as usize,
    }
}
