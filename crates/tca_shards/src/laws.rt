//! What the bills of shards and of windows come to, as contracts.
ghost use Rattle.tca_shards.specs.Shards.{AllDomainsApartAddUp, AllShardsAddUp, DomainsApartAddUp, ShardsAddUp, SidesAddUp, SpansAddUp, SumsAssociate, SumsCommute};
ghost use Rattle.tca_shards.specs.Statements.{BillsAreRead, BillsAreWritten, StatementsAddUp, WindowsStatementsAddUp};
ghost use Rattle.tca_shards.specs.Windows.{AllWindowsAddUp, WindowsAddUp};

/// The bill of the union of sets whose observation domains are apart is the sum of their bills, where no account has pairs of the domains
/// of two of them.
///
/// `two` and `all` say so of two sets and of any number. The others name the domains in place of the sets: `sides` of any reports and a
/// choice of domains, `two_sides` of two sets, `homes` of any number of sets with a number for each domain.
pub fn shards_add_up()
    ensures two { DomainsApartAddUp }
    ensures all { AllDomainsApartAddUp }
    ensures sides { SidesAddUp }
    ensures two_sides { ShardsAddUp }
    ensures homes { AllShardsAddUp }
{}

/// The bill of a log is the sum of the bills of windows of time, where no identity has contents in two of them, and each account's meter
/// has a term that starts at the start of each window but the first.
///
/// `two` and `all` say so of two windows and of any number.
pub fn windows_add_up()
    ensures two { WindowsAddUp }
    ensures all { AllWindowsAddUp }
{}

/// What the sum of bills is: `spans` says that it has the periods of both, ascending, with the sums of both for each; `commute` and
/// `associate` say that bills may be added in any order.
pub fn sums_in_any_order()
    ensures spans { SpansAddUp }
    ensures commute { SumsCommute }
    ensures associate { SumsAssociate }
{}

/// The statement of a bill is read as the bill: `read` says that its text is a statement in form, whose figures are the bill's. So where
/// sets have their domains apart, `sum` says, the statements of their bills add up to the figures of the bill of their union, where each
/// sum has 64 bits; and so do those of windows of time that are billed apart, as `windows` says. That these figures are written as the
/// statement of the bill of all, octet by octet, is `octets`: of any bill, so of more reports than one log holds too.
pub fn statements_add_up()
    ensures read { BillsAreRead }
    ensures sum { StatementsAddUp }
    ensures windows { WindowsStatementsAddUp }
    ensures octets { BillsAreWritten }
{}
