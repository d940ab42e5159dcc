// Numbers: specs/Number.antt.
ghost use Rattle.std.specs.Prelude.{◌≡◌, ◌≤◌, IfSome};
ghost use Rattle.job_line.specs.Bytes.{found};
ghost use Rattle.job_line.specs.Number.{digits, number};
ghost use Rattle.job_line.specs.Internal.Steps.{as_found, digit};

// The number at the front of some bytes, and the bytes behind it.
#[tactic(auto, using(crate::proofs::Numbers::by_digit))]
pub(crate) fn read_number(bytes: &[u8]) -> Option<(u32, &[u8])>
    ensures { as_found result ≡ number bytes.now }
{
    match read_digit(bytes)? {
        (0, rest) => Some((0, rest)),
        (first, rest) => Some(read_digits(first, rest)),
    }
}

// The number that a digit and at most four more make. `parse` would have to be told how many bytes are digits, and they are looked at
// for that.
fn read_digits(first: u32, bytes: &[u8]) -> (u32, &[u8])
    requires { first ≤ 9 }
    ensures { found result.0 result.1.now ≡ digits 4 first bytes.now }
{
    let mut value = first;
    let mut rest = bytes;
    for _ in 0..4usize {
        let Some((digit, behind)) = read_digit(rest) else {
            break;
        };
        value = value * 10 + digit;
        rest = behind;
    }
    (value, rest)
}

// The digit at the front of some bytes.
fn read_digit(bytes: &[u8]) -> Option<(u32, &[u8])>
    ensures value { as_found result ≡ digit bytes.now }
    ensures small { IfSome result (λ r. r.0 ≤ 9) }
{
    let (first, rest) = bytes.split_first()?;
    let digit = char::from(*first).to_digit(10)?;
    Some((digit, rest))
}
