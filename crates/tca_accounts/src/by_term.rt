//! What an account with terms owes, in the words of its terms.
ghost use Rattle.tca_accounts.specs.Plans.{PlannedAccount};
ghost use Rattle.tca_accounts.specs.TermBills.{BillsAsOne, BillsByTerm};

/// The law of accounts with terms, as a contract: an account's reports have the colours that its terms' meters give
/// them, each fed from full buckets at its start the reports of its time alone. So the octets and packets of each
/// colour, in all and in each period, are those of its terms together. And an account without terms has the colours
/// of its one meter.
pub fn bills_by_term()
    ensures terms { (account : PlannedAccount) → BillsByTerm account }
    ensures plain { (account : PlannedAccount) → BillsAsOne account }
{}
