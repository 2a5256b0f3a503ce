//! What calls on replicas and their workers answer, as a command answers it: what came of them, or the refusal with its family and the
//! number of the fault.
ghost use Rattle.std.specs.Prelude.{◌≡◌, ◌≢◌, None, Ok, Err, IfOk, IfErr, MatchResult};
ghost use Rattle.tca_gossip.specs.Answers.{absorb_number};
ghost use Rattle.tca_ingest.specs.Faults.{close_number, work_number};
ghost use Rattle.tca_commands.specs.Replicated.{IsReadingRefused, IsExchangeRefused};
ghost use Rattle.tca_program.specs.Unions.{refusal};
ghost use Rattle.tca_program.specs.declared.fault.Family.TheVariants as family;

use tca_gossip::AbsorbFault;
use tca_ingest::{Closed, Side, Unclosed, WorkRefused, Worked};
use tca_program::RunFault;

/// What the workers of a replica did.
pub(crate) fn of_workers<L: Side>(
    outcome: Result<Worked<L>, WorkRefused<L>>,
) -> Result<Worked<L>, RunFault>
    ensures exact { MatchResult outcome (λ done. result ≡ Ok done) (λ r. result ≡ Err (refusal None family.Work (work_number r.fault))) }
    ensures done { IfOk result (λ done. outcome ≡ Ok done) }
    ensures refused { IfErr result IsReadingRefused }
{
    match outcome {
        Ok(done) => Ok(done),
        Err(refused) => Err(RunFault::from(refused.fault)),
    }
}

/// A replica that was closed.
pub(crate) fn of_close<L: Side>(outcome: Result<Closed, Unclosed<L>>) -> Result<Closed, RunFault>
    ensures exact { MatchResult outcome (λ closed. result ≡ Ok closed) (λ u. result ≡ Err (refusal None family.Close (close_number u.fault))) }
    ensures closed { IfOk result (λ closed. outcome ≡ Ok closed) }
    ensures refused { IfErr result IsReadingRefused }
{
    match outcome {
        Ok(closed) => Ok(closed),
        Err(unclosed) => Err(RunFault::from(unclosed.fault)),
    }
}

/// How many reports were absorbed.
pub(crate) fn of_absorb(outcome: Result<u64, AbsorbFault>) -> Result<u64, RunFault>
    ensures exact { MatchResult outcome (λ count. result ≡ Ok count) (λ fault. result ≡ Err (refusal None family.Absorb (absorb_number fault))) }
    ensures absorbed { IfOk result (λ count. outcome ≡ Ok count) }
    ensures refused { IfErr result IsExchangeRefused }
{
    match outcome {
        Ok(count) => Ok(count),
        Err(fault) => Err(RunFault::from(fault)),
    }
}
