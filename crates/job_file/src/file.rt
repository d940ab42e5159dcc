// The job of a file: specs/File.antt.
ghost use Rattle.std.specs.Prelude.{◌≡◌, ◌≤◌, length};
ghost use Rattle.basics.specs.Internal.Arrays.{written};
ghost use Rattle.job_file.specs.File.{outcome_of};
ghost use Rattle.job_file.specs.Internal.Job.{job_says};

use crate::job::{Job, NO_GLASS, NO_PANE};
use crate::lists::{Glasses, Panes, read_lists};
use causes::Refusal;

// The job of a file, or the first cause against it. Its arrays are made before the parts are read, and it is filled in place: a job that
// was made of its lists at the end was copied once more, and a small file took half as long again.
pub fn read_job(file: &[u8]) -> Result<Job, Refusal>
    ensures { job_says result ≡ outcome_of file.now }
{
    let mut job = Job {
        glasses: [NO_GLASS; 64],
        glass_count: 0,
        panes: [NO_PANE; 256],
        pane_count: 0,
    };
    let mut glasses = Glasses::new();
    let mut panes = Panes::new();
    read_lists(file, &mut glasses, &mut panes)?;
    job.glass_count = copy_to_front(&glasses, &mut job.glasses);
    job.pane_count = copy_to_front(&panes, &mut job.panes);
    Ok(job)
}

// Copies a list to the front of an array, and answers how long the list is.
fn copy_to_front<T: Copy>(list: &[T], array: &mut [T]) -> usize
    requires { length list.now ≤ length array.old }
    ensures count { result ≡ length list.now }
    ensures copied { array.new ≡ written list.now array.old }
{
    array[..list.len()].copy_from_slice(list);
    list.len()
}
