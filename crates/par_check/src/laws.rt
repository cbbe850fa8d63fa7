//! The law of batches.
ghost use Rattle.std.specs.Prelude.{◌≡◌, ℕ, List};
ghost use Rattle.par_check.specs.declared.job.Job.{Job as Named};
ghost use Rattle.par_check.specs.Batch.{IsBatch};

use text_answers::one_answer_by_one_worker_at_most;

/// What is written for a batch is a function of its bytes, whatever the number of threads and however the programs were shared
/// out among them.
pub fn one_batch()
    ensures { (job : Named) (batch one other : List ℕ) → IsBatch job batch one → IsBatch job batch other → one ≡ other }
{
    one_answer_by_one_worker_at_most();
}
