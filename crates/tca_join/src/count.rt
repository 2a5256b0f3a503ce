//! A count, of which the greater is kept.
ghost use Rattle.std.specs.Prelude.{◌≡◌, max, IsOk, None, Ok};
ghost use Rattle.tca_join.specs.Counts.{IsCount, count_clash, count_full};
ghost use Rattle.tca_join.specs.laws.CountLaws.{count_laws};

use crate::fault::JoinFault;
use crate::join::Join;
use std::alloc::AllocError;
use std::marker::Model;

/// A count, of which the greater is kept. It takes no memory, and no join of counts is refused.
#[derive(Clone, Copy, Debug, PartialEq, Eq, Drop)]
pub struct MaxOf(pub u32);

impl Model for MaxOf {
    ghost use Rattle.std.specs.Prelude.{ℕ};

    ghost Value = { ℕ };

    ghost view = { λ m. m.0 };

    ghost inverse = { λ n. record { 0 = n } };
}

impl Join for MaxOf {
    ghost proper = { IsCount };

    ghost clash = { count_clash };

    ghost full = { count_full };

    ghost same = { λ a b. a ≡ b };

    ghost joined = { max };

    ghost laws = { count_laws };

    fn known(&self) {
        let _count = self.0;
    }

    fn refusal(&self, other: &MaxOf) -> Option<JoinFault>
        ensures { result ≡ None }
    {
        None
    }

    fn join_from(&mut self, other: &MaxOf) -> Result<(), JoinFault>
        ensures done { IsOk result }
        ensures ok { self.new ≡ max self.old other.now }
    {
        self.0 = self.0.max(other.0);
        Ok(())
    }

    fn copy(&self) -> Result<MaxOf, AllocError>
        ensures { result ≡ Ok self.now }
    {
        Ok(*self)
    }
}
