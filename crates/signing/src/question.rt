// Whether a job can still be finished.
ghost use Rattle.std.specs.Prelude.{◌≡◌, length};
ghost use Rattle.bits.specs.Says.{Says};
ghost use Rattle.sheet.specs.Readable.{ReadableJob};
ghost use Rattle.workflow.specs.Problem.{Satisfiable};
ghost use Rattle.instance.specs.Instance.{instance_of, may_of};
ghost use Rattle.signing.specs.Bound.{bound};

use super::bound::bound_masks;
use bits::sizes::MOST_STEPS;
use search::exists::exists;
use search::weights::weights;
use sheet::SheetJob;
use tables::{may_masks, pose};

// Whether some valid plan gives each signed step to its signer.
pub fn can_finish(job: &SheetJob, signer: &[u8; MOST_STEPS]) -> bool
    requires { ReadableJob job.now.people job.now.steps job.now.rules job.now × (length signer.now ≡ 12) }
    ensures { Says result (Satisfiable (instance_of job.now.people job.now.steps job.now.rules job.now) (bound (may_of job.now) signer.now)) }
{
    let may = may_masks(&job.permitted, job.people);
    let rest = bound_masks(&may, signer);
    let tables = pose(job);
    let mut weight = weights(&tables.of);
    exists(&tables, &rest, &mut weight).is_some()
}
