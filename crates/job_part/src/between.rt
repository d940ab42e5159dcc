// Allowed values: specs/Part.antt.
ghost use Rattle.std.specs.Prelude.{◌≡◌};
ghost use Rattle.job_part.specs.Part.{between};

// Whether a number is from `low` to `high`: `contains` of a range, with the definition's `between` for its contract.
pub fn is_between(low: u32, high: u32, n: u32) -> bool
    ensures { result ≡ between low high n }
{
    (low..=high).contains(&n)
}
