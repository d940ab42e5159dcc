// Where the parts of a file stand: specs/File.antt.
ghost use Rattle.std.specs.Prelude.{◌≡◌};
ghost use Rattle.job_file.specs.File.{outcome_of};
ghost use Rattle.job_file.specs.Internal.Steps.{PartsFound};

use crate::trailer::read_trailer;
use causes::{Cause, Refusal};

// The offsets at which the glass part, the pane part and the trailer begin. They are no slices: a refusal says where in the file it is.
#[derive(Drop)]
pub(crate) struct Parts {
    pub glass: usize,
    pub pane: usize,
    pub end: usize,
}

// The parts of a file, or the first of the causes 1 to 3 against it.
#[tactic(auto, unfolding(crate::specs::File::outcome_of))]
pub(crate) fn find_parts(file: &[u8]) -> Result<Parts, Refusal>
    ensures { PartsFound file.now result }
{
    let length = file.len();
    if length < 14 || 65535 < length {
        return Err(Cause::FileLength.at(0));
    }
    let end = length - 14;
    let Some((glass, pane)) = read_trailer(&file[end..]) else {
        return Err(Cause::NoTrailer.at(end));
    };
    if pane < glass || end < pane {
        return Err(Cause::PartOffsets.at(end));
    }
    Ok(Parts { glass, pane, end })
}
