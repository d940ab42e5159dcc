// The trailer, the last 14 bytes of a file: specs/File.antt.
ghost use Rattle.std.specs.Prelude.{◌≡◌};
ghost use Rattle.job_file.specs.File.{trailer};
ghost use Rattle.job_file.specs.Internal.Steps.{as_trailer, as_digits};

// Where the glass part and the pane part begin, as the last 14 bytes of a file say.
#[tactic(auto, using(crate::proofs::Digits::tests), unfolding(crate::specs::File::trailer))]
pub(crate) fn read_trailer(bytes: &[u8]) -> Option<(usize, usize)>
    ensures { as_trailer result ≡ trailer bytes.now }
{
    match *bytes {
        [b'T', b' ', a, b, c, d, e, b' ', f, g, h, i, j, b'\n'] => {
            Some((five_digits([a, b, c, d, e])?, five_digits([f, g, h, i, j])?))
        }
        _ => None,
    }
}

// The number that five bytes make, where all of them are digits. `parse` is no plainer: it takes a sign, so each byte would be asked all
// the same.
fn five_digits(bytes: [u8; 5]) -> Option<usize>
    ensures { result ≡ as_digits bytes }
{
    let mut number = 0;
    for byte in bytes {
        number = number * 10 + char::from(byte).to_digit(10)? as usize;
    }
    Some(number)
}
