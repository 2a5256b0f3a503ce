//! Which replica is shared.
ghost use Rattle.std.specs.Prelude.{ℕ, []};
ghost use Rattle.tca_accounts.specs.Plans.{AccountPlan};

use std::marker::Brand;
use std::sync::ledger::Ledger;

/// Stands for one shared replica. A pass has it in its type, so that a pass of another replica doesn't compile.
///
/// Contracts alone see its members. The replica is made in a function that is generic in `L: Side`; who calls that function, with
/// `Brand`, picks the members for the call.
pub trait Side: Ledger {
    /// The plan of the replica.
    ghost plan: { AccountPlan };

    /// The name of the replica.
    ghost called: { ℕ };
}

impl Side for Brand {
    ghost plan = { record { period = 0; accounts = [] } };

    ghost called = { 0 };
}
