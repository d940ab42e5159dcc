// The lists of a file, before they are a job's: specs/File.antt.
ghost use Rattle.std.specs.Prelude.{◌≡◌, OnOk};
ghost use Rattle.job_file.specs.File.{outcome_of};
ghost use Rattle.job_file.specs.Rules.{Rules};
ghost use Rattle.job_file.specs.Internal.Job.{lists_say};

use crate::parts::find_parts;
use arrayvec::ArrayVec;
use causes::Refusal;
use job_glass::Glass;
use job_pane::Pane;
use job_part::read_part;

pub(crate) type Glasses = ArrayVec<Glass, 64>;

pub(crate) type Panes = ArrayVec<Pane, 256>;

// Reads the glasses and the panes of a file, up to the first cause against it. The lists are the caller's: those of a job are copied into
// it, and a check, which only counts them, has no job to fill.
pub(crate) fn read_lists(
    file: &[u8],
    glasses: &mut Glasses,
    panes: &mut Panes,
) -> Result<(), Refusal>
    ensures says { lists_say result glasses.new.items panes.new.items ≡ outcome_of file.now }
    ensures rules { OnOk result (Rules glasses.new.items panes.new.items) }
{
    let parts = find_parts(file)?;
    read_part(&file[parts.glass..parts.pane], parts.pane, glasses)?;
    read_part(&file[parts.pane..parts.end], parts.end, panes)?;
    Ok(())
}
