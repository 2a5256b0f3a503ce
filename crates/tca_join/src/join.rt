//! What a join is, and its laws.
//!
//! A type describes its joins by members that contracts alone see. `proper` holds of each value of the type.
//! `clash` names what two values clash at; where it is `None` they are compatible. `full` says of two compatible
//! values that their join is above a limit. `joined` is the join of two values that have one. `same` says that two
//! values count as one, and the laws hold up to it. `known` is a call that changes nothing, and its clause says of
//! the value at hand that it is proper.
ghost use Rattle.std.specs.Prelude.{◌≡◌, ℕ, Bool, false, Option, IfOk, IfErr, OnOk, OnErr};
ghost use Rattle.tca_join.specs.Joins.{Compatible, IsJoin, Commutes, Associates, AssociatesBack, IsIdempotent, IsAbove, IsLeast, IsTransitive, IsAntisymmetric};
ghost use Rattle.tca_join.specs.Faults.{IsJoinFault, refusal};

use crate::fault::JoinFault;
use std::alloc::AllocError;

/// Values of which some two have a join, their least upper bound.
///
/// Two values have one where they don't clash and their join is within each limit. The laws hold up to `same`, and
/// [`join_laws`] states them.
pub trait Join: Drop + Sized {
    /// Holds of each value of the type.
    ghost proper: { Self → Type 0 };

    /// What the two clash at, which `Clash` names; `None` where they are compatible.
    ghost clash: { Self → Self → Option ℕ };

    /// Whether the join of two compatible values is above a limit.
    ghost full: { Self → Self → Bool };

    /// Whether two values count as one.
    ghost same: { Self → Self → Type 0 };

    /// The join, of two that have one.
    ghost joined: { Self → Self → Self };

    /// Changes nothing: its clause says what is known of each value.
    fn known(&self)
        ensures { proper self.now };

    /// Why the two have no join: `Clash` where they aren't compatible, else `Full` where their join is above a limit.
    /// `None` where they have one. It takes no memory.
    fn refusal(&self, other: &Self) -> Option<JoinFault>
        ensures { result ≡ refusal (clash self.now other.now) (full self.now other.now) };

    /// Makes this the join of the two.
    ///
    /// `Clash` comes exactly where the two aren't compatible, `Full` exactly where they are and their join is above a
    /// limit, and `Memory` only where they have a join. On each refusal the value is as before.
    fn join_from(&mut self, other: &Self) -> Result<(), JoinFault>
        ensures compatible { OnOk result (Compatible clash self.old other.now) }
        ensures within { OnOk result (full self.old other.now ≡ false) }
        ensures ok { OnOk result (self.new ≡ joined self.old other.now) }
        ensures err { OnErr result (self.new ≡ self.old) }
        ensures fault { IfErr result (IsJoinFault (clash self.old other.now) (full self.old other.now)) };

    /// A value of its own that equals this one. `AllocError` comes where memory was refused, which changes nothing.
    fn copy(&self) -> Result<Self, AllocError>
        ensures { IfOk result (λ c. c ≡ self.now) };

    /// The laws that each type of such values keeps to.
    ghost laws: { IsJoin proper clash full same joined };
}

/// The laws of each join, as a contract: the order of values doesn't matter, each way to join three is defined exactly
/// where the other is, being below is an order, and the join is the least upper bound in it.
pub fn join_laws<J: Join>()
    ensures commutes { Commutes J.proper J.clash J.full J.same J.joined }
    ensures associates { Associates J.proper J.clash J.full J.same J.joined }
    ensures associates_back { AssociatesBack J.proper J.clash J.full J.same J.joined }
    ensures idempotent { IsIdempotent J.proper J.clash J.full J.same J.joined }
    ensures above { IsAbove J.proper J.clash J.full J.same J.joined }
    ensures least { IsLeast J.proper J.clash J.full J.same J.joined }
    ensures transitive { IsTransitive J.proper J.clash J.full J.same J.joined }
    ensures antisymmetric { IsAntisymmetric J.proper J.clash J.full J.same J.joined }
{}
