// The spare count of a job as the card reader gives it.
ghost use Rattle.std.specs.Prelude.{◌≡◌, ◌≤◌};
ghost use Rattle.sheet.specs.Readable.{ReadableJob};
ghost use Rattle.instance.specs.Instance.{instance_of, may_of};
ghost use Rattle.resiliency.specs.Count.{spare};
ghost use Rattle.resiliency.specs.Known.{told};
ghost use Rattle.resiliency.specs.Left.{Groups};

use super::Spared;
use super::count::spare_count;
use sheet::SheetJob;
use tables::{may_masks, pose};

pub fn job_count(job: &SheetJob, cap: usize) -> Spared
    requires { ReadableJob job.now.people job.now.steps job.now.rules job.now × (cap ≤ 3) }
    ensures { (told result ≡ spare (instance_of job.now.people job.now.steps job.now.rules job.now) (may_of job.now) cap) × Groups result }
{
    let may = may_masks(&job.permitted, job.people);
    spare_count(&pose(job), &may, cap)
}
