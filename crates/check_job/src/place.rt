// Where an offset lies, as an editor counts lines: specs/Internal/Place.antt.
ghost use Rattle.std.specs.Prelude.{◌≡◌, ◌≤◌, length};
ghost use Rattle.check_job.specs.Internal.Place.{newlines, line_number};

// The number of the line that an offset lies on, counted from 1.
pub(crate) fn line_number(file: &[u8], offset: usize) -> usize
    ensures { result ≡ line_number file.now offset }
{
    1 + newlines(&file[..offset.min(file.len())])
}

fn newlines(bytes: &[u8]) -> usize
    ensures count { result ≡ newlines bytes.now }
    ensures bound { result ≤ length bytes.now }
{
    bytes.iter().filter(|b| **b == b'\n').count()
}
