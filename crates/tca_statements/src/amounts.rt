//! The amounts of one account and period.
ghost use Rattle.std.specs.Prelude.{◌≡◌, ◌∷◌, ◌++◌, [], IfOk, OnErr};
ghost use Rattle.tca_statements.specs.Issues.{AreOctets, less, sum_of};

use crate::amount::Amount;
use std::alloc::{AllocError, Global};
use std::marker::Model;

/// Amounts issued one after the other, and what they make together.
#[derive(Drop)]
pub(crate) struct Amounts {
    list: Vec<Amount>,
    sum: Amount,
}

impl Model for Amounts {
    ghost use Rattle.std.specs.Prelude.{◌≡◌, List};
    ghost use Rattle.tca_statements.specs.declared.amount.Amount.{Amount};
    ghost use Rattle.tca_statements.specs.Issues.{AreOctets, sum_of};

    ghost Value = { List Amount };

    ghost view = { λ a. a.list.items };

    ghost invariant = { λ a. (sum_of a.list.items ≡ a.sum) × AreOctets a.sum };
}

impl Amounts {
    /// None yet.
    pub(crate) fn new(alloc: Global) -> Amounts
        ensures { result ≡ [] }
    {
        Amounts {
            list: Vec::new(alloc),
            sum: Amount {
                green: 0,
                yellow: 0,
                red: 0,
            },
        }
    }

    /// Adds what is missing for all to make what is due.
    pub(crate) fn make(&mut self, due: Amount) -> Result<Amount, AllocError>
        requires { AreOctets due }
        ensures amount { IfOk result (λ a. a ≡ less due (sum_of self.old)) }
        ensures listed { IfOk result (λ a. self.new ≡ self.old ++ a ∷ []) }
        ensures err { OnErr result (self.new ≡ self.old) }
    {
        let amount = Amount {
            green: due.green - self.sum.green,
            yellow: due.yellow - self.sum.yellow,
            red: due.red - self.sum.red,
        };
        self.list.push(amount)?;
        self.sum = due;
        Ok(amount)
    }

    /// The amounts in their order.
    pub(crate) fn as_slice(&self) -> &[Amount]
        ensures { result.now ≡ self.now }
    {
        &self.list
    }
}
