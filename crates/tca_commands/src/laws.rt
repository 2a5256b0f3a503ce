//! What replicas of a world come to in statements.
ghost use Rattle.std.specs.Prelude.{◌≡◌, ℕ, Some, slice_get};
ghost use Rattle.tca_accounts.specs.Bills.{bill_of};
ghost use Rattle.tca_gossip.specs.Coupling.{IsCoupled, WorldView, counts_of};
ghost use Rattle.tca_gossip.specs.Machines.{Machine};
ghost use Rattle.tca_gossip.specs.Replicas.{ReplicaView};
ghost use Rattle.tca_statements.specs.Statements.{statement_text};

use tca_gossip::shown_laws;

/// Replicas of a world whose summaries are equal have the same statement, to the octet.
pub fn equal_summaries_make_one_statement()
    ensures { (m : Machine) (w : WorldView) (i j : ℕ) (v u : ReplicaView) → IsCoupled m w → slice_get w.replicas i ≡ Some v → slice_get w.replicas j ≡ Some u
        → counts_of v.chains ≡ counts_of u.chains → statement_text v.plan (bill_of v.plan v.log) ≡ statement_text u.plan (bill_of u.plan u.log) }
{
    shown_laws();
}
