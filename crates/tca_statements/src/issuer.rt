//! Issuing amounts. A period of a bill, and what was issued for it, are found in logarithmic time.
ghost use Rattle.std.specs.Prelude.{◌≡◌, ◌≢◌, ◌<◌, ◌==◌, ◌∷◌, ◌++◌, ℕ, [], IfOk, IsErrOf, IsOk, OnOk, OnErr, MatchResult, option_copied, Some, None, false, length};
ghost use Rattle.std.specs.List.{find};
ghost use Rattle.tca_accounts.specs.Plans.{same_pair};
ghost use Rattle.tca_accounts.specs.Spans.{Ascend};
ghost use Rattle.tca_statements.specs.declared.fault.IssueFault.TheVariants.{Memory};
ghost use Rattle.tca_statements.specs.Issues.{AreOctets, amount_of, due_now, issue_fault, issued_for, next_amount, sum_of};

use crate::amount::Amount;
use crate::amounts::Amounts;
use crate::fault::IssueFault;
use std::alloc::{AllocError, Global};
use std::collections::BTreeMap;
use std::marker::Model;
use tca_accounts::{Bill, Plan, Span, Sums};
use tca_report::TIME_END;

/// What issues the amounts of the accounts of one plan.
#[derive(Drop)]
pub struct Issuer {
    alloc: Global,
    accounts: u32,
    period: u64,
    entries: BTreeMap<(u32, u64), Amounts>,
}

impl Model for Issuer {
    ghost use Rattle.std.specs.Prelude.{◌<◌};
    ghost use Rattle.tca_statements.specs.Issues.{Issued};

    ghost Value = { Issued };

    ghost view = { λ i. record { accounts = i.accounts; period = i.period; entries = i.entries.entries } };

    ghost invariant = { λ i. 0 < i.period };
}

impl Issuer {
    /// One that has issued nothing for this plan's accounts. It takes no memory yet, and so is never refused.
    pub fn new(alloc: Global, plan: &Plan) -> Result<Issuer, AllocError>
        ensures made { IfOk result (λ i. i ≡ record { accounts = length plan.now.accounts; period = plan.now.period; entries = [] }) }
        ensures always { IsOk result }
    {
        Ok(Issuer {
            alloc,
            accounts: plan.accounts(),
            period: plan.period(),
            entries: BTreeMap::new(alloc),
        })
    }

    /// Issues what a bill has for an account and a period, less what was issued for them before. The first amount is
    /// what the bill has, 0 where it has no such period. `NoAccount` where the plan has no such account, else `Period`
    /// where no time is in that period, else `Memory`; each leaves all as it was.
    pub fn issue(&mut self, bill: &Bill, account: u32, span: u64) -> Result<Amount, IssueFault>
        requires { length bill.now.accounts ≡ self.old.accounts }
        // The amount, and that it is listed.
        ensures amount { IfOk result (λ a. a ≡ next_amount bill.now self.old account span) }
        ensures listed { IfOk result (λ a. issued_for self.new account span ≡ issued_for self.old account span ++ a ∷ []) }
        // All amounts for the account and the period make what is due now.
        ensures sum { OnOk result (sum_of (issued_for self.new account span) ≡ due_now bill.now account span) }
        // Nothing else changes.
        ensures others { OnOk result ((n s : ℕ) → same_pair (account, span) (n, s) ≡ false → issued_for self.new n s ≡ issued_for self.old n s) }
        ensures plan { (self.new.accounts ≡ self.old.accounts) × (self.new.period ≡ self.old.period) }
        // Which fault it is, want of memory last, and what it leaves.
        ensures fault { MatchResult result (λ _. issue_fault self.old account span ≡ None) (λ e. e ≢ Memory → issue_fault self.old account span ≡ Some e) }
        ensures memory { IsErrOf result Memory → issue_fault self.old account span ≡ None }
        ensures err { OnErr result (self.new ≡ self.old) }
    {
        if account >= self.accounts {
            return Err(IssueFault::NoAccount);
        }
        if span > (TIME_END - 1) / self.period {
            return Err(IssueFault::Period);
        }
        let due = due_now(bill, account, span);
        if let Some(amounts) = self.entries.get_mut(&(account, span)) {
            return Ok(amounts.make(due)?);
        }
        let mut amounts = Amounts::new(self.alloc);
        let amount = amounts.make(due)?;
        self.entries.insert((account, span), amounts)?;
        Ok(amount)
    }

    /// The amounts issued for an account and a period, in their order; none where none was issued.
    #[tactic(auto, unfolding(crate::specs::Issues::issued_for))]
    pub fn issued(&self, account: u32, span: u64) -> &[Amount]
        ensures { result.now ≡ issued_for self.now account span }
    {
        match self.entries.get(&(account, span)) {
            Some(amounts) => amounts.as_slice(),
            None => &[],
        }
    }
}

// The octets of these sums.
fn octets_of(sums: &Sums) -> Amount
    ensures value { result ≡ amount_of sums.now }
    ensures range { AreOctets result }
{
    let [green, yellow, red] = sums.octets();
    Amount {
        green: green as i64,
        yellow: yellow as i64,
        red: red as i64,
    }
}

// The span of this index among spans that ascend.
fn span_at(spans: &[Span], index: u64) -> Option<&Span>
    requires { Ascend spans.now }
    ensures { option_copied result ≡ find (λ s. s.index == index) spans.now }
{
    match spans.binary_search_by_key(&index, |span| span.index) {
        Ok(at) => Some(&spans[at]),
        Err(_) => None,
    }
}

// What a bill has for an account and a period.
#[tactic(auto, unfolding(crate::specs::Issues::due_now))]
fn due_now(bill: &Bill, account: u32, span: u64) -> Amount
    requires { account < length bill.now.accounts }
    ensures value { result ≡ due_now bill.now account span }
    ensures range { AreOctets result }
{
    let tally = &bill.accounts.as_slice()[account as usize];
    match span_at(tally.spans.as_slice(), span) {
        Some(found) => octets_of(&found.sums),
        None => Amount {
            green: 0,
            yellow: 0,
            red: 0,
        },
    }
}
