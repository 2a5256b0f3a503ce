//! Logs as values that join: any two are compatible, and their join is their union.
ghost use Rattle.std.specs.Prelude.{◌≡◌, ◌<◌, None, false, true, IfErr, IfOk, IsOk, OnErr, OnOk, length};
ghost use Rattle.tca_join.specs.Joins.{Compatible};
ghost use Rattle.tca_join.specs.Faults.{IsJoinFault, refusal};
ghost use Rattle.tca_join.specs.declared.fault.JoinFault.TheVariants.{Full};
ghost use Rattle.tca_log.specs.LogJoin.{IsLogSet, log_clash, log_full, log_joined, log_laws};

use crate::fault::LogFault;
use crate::log::Log;
use std::alloc::{AllocError, Allocator};
use tca_join::{Join, JoinFault};

impl<A: Allocator + Copy> Join for Log<A> {
    ghost proper = { IsLogSet };

    ghost clash = { log_clash };

    ghost full = { log_full };

    ghost same = { λ a b. a ≡ b };

    ghost joined = { log_joined };

    ghost laws = { log_laws };

    fn known(&self) {
        let _reports = self.reports();
    }

    fn refusal(&self, other: &Log<A>) -> Option<JoinFault> {
        if self.is_over_with(other) {
            Some(JoinFault::Full)
        } else {
            None
        }
    }

    /// The union. It is refused where `union` is, and for the same cause: `Full` exactly where the union has more than
    /// 4,194,304 reports. Where nothing is new there is no refusal.
    fn join_from(&mut self, other: &Log<A>) -> Result<(), JoinFault>
        ensures compatible { OnOk result (Compatible log_clash self.old other.now) }
        ensures within { OnOk result (log_full self.old other.now ≡ false) }
        ensures ok { OnOk result (self.new ≡ log_joined self.old other.now) }
        ensures err { OnErr result (self.new ≡ self.old) }
        ensures fault { IfErr result (IsJoinFault (log_clash self.old other.now) (log_full self.old other.now)) }
        ensures nothing { log_joined self.old other.now ≡ self.old → IsOk result }
    {
        match self.union(other) {
            Ok(_) => {
                // For its clause alone: how many reports there may be.
                let _within = self.len();
                Ok(())
            }
            Err(LogFault::Full) => Err(JoinFault::Full),
            Err(LogFault::Memory) => Err(JoinFault::Memory),
        }
    }

    fn copy(&self) -> Result<Log<A>, AllocError> {
        Log::copy(self)
    }
}
