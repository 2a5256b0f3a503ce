//! The log itself.
ghost use Rattle.std.specs.Prelude.{◌≡◌, List, ℕ, ◌+◌, ◌<◌, ◌≤◌, false, [], length, IfOk, IfErr, OnOk, OnErr};
ghost use Rattle.std.specs.List.Sorted.{IsStrictlySortedBy};
ghost use Rattle.tca_join.specs.Sets.{has, in_order};
ghost use Rattle.tca_report.specs.report.Reports.{PacketReport, report_cmp, most_reports};
ghost use Rattle.tca_log.specs.Arrivals.{Arrival, One, after, after_all, all_given};
ghost use Rattle.tca_log.specs.Disputes.{added, undisputed, disputed};
ghost use Rattle.tca_log.specs.Faults.{IsAddRefused};

use crate::answer::Added;
use crate::by_identity::ByIdentity;
use crate::fault::LogFault;
use crate::index::{copied, enter, index_of};
use crate::rows::{LIMIT, Rows, RowsIter};
use crate::settled::Settled;
use std::alloc::{AllocError, Allocator, Global};
use std::marker::Model;
use tca_report::{Identity, Report};

/// A finite set of packet reports, at most 4,194,304, in their order. It keeps all contents of an identity;
/// two or more of them dispute one another, and none of these is settled.
///
/// Adding a report costs a search among the reports and one among the identities, whatever their values are. The
/// index of the identities is made when it is first needed, by one report or a short list: a log that is given long lists alone
/// never makes it.
#[derive(Drop)]
pub struct Log<A: Allocator + Copy = Global> {
    pub(crate) rows: Rows<Report, A>,
    pub(crate) index: Option<Rows<ByIdentity, A>>,
    pub(crate) disputed: Rows<Identity, A>,
}

impl<A: Allocator + Copy> Model for Log<A> {
    ghost use Rattle.std.specs.Prelude.{List};
    ghost use Rattle.tca_report.specs.report.Reports.{PacketReport};
    ghost use Rattle.tca_log.specs.inside.Logs.{IsKept, index_rows};

    ghost Value = { List PacketReport };

    ghost view = { λ l. l.rows.rows };

    ghost invariant = { λ l. IsKept l.rows.rows (index_rows l.index) l.disputed.rows };
}

impl<A: Allocator + Copy> Log<A> {
    /// A log without reports. It takes no memory.
    pub fn new(alloc: A) -> Log<A>
        ensures { result ≡ [] }
    {
        Log {
            rows: Rows::new(alloc),
            index: None,
            disputed: Rows::new(alloc),
        }
    }

    /// How many reports there are.
    pub fn len(&self) -> u32
        ensures length { result ≡ length self.now }
        ensures limit { length self.now ≤ most_reports }
    {
        self.rows.len() as u32
    }

    /// Whether the report is there.
    pub fn contains(&self, report: &Report) -> bool
        ensures { result ≡ has report_cmp self.now report.now }
    {
        self.rows.contains(report)
    }

    /// How many identities have two or more contents.
    pub fn disputed(&self) -> u32
        ensures { result ≡ length (disputed self.now) }
    {
        self.disputed.len() as u32
    }

    /// All reports, in order.
    pub fn reports(&self) -> RowsIter<'_, Report, A>
        ensures all { result ≡ self.now }
        ensures rises { IsStrictlySortedBy report_cmp self.now }
        ensures limit { length self.now ≤ most_reports }
    {
        self.rows.iter()
    }

    /// The reports whose identity has no other content, in order.
    pub fn settled(&self) -> Settled<'_, A>
        ensures all { result ≡ undisputed self.now }
        ensures rises { IsStrictlySortedBy report_cmp (undisputed self.now) }
        ensures limit { length (undisputed self.now) ≤ most_reports }
    {
        Settled::new(&self.rows, &self.disputed)
    }

    /// Adds a report, and answers what it was to the log. A repeat changes nothing, takes no memory and is
    /// never refused. `Full` comes where the log has 4,194,304 reports and this one is new, `Memory` where a
    /// growth was refused; both leave the log as it was.
    pub fn add(&mut self, report: Report) -> Result<Added, LogFault>
        ensures answer { IfOk result (λ a. a ≡ added self.old report) }
        ensures ok { OnOk result (self.new ≡ after (One report) self.old) }
        ensures err { OnErr result (self.new ≡ self.old) }
        ensures new { OnErr result (has report_cmp self.old report ≡ false) }
        ensures fault { IfErr result (λ e. IsAddRefused e self.old) }
    {
        if self.rows.contains(&report) {
            return Ok(Added::Repeat);
        }
        if self.rows.len() >= LIMIT {
            return Err(LogFault::Full);
        }
        self.rows.reserve()?;
        let mut index = index_of(&self.rows, self.index.take())?;
        let entered = enter(&mut index, &mut self.disputed, report);
        self.index = Some(index);
        let answer = entered?;
        self.rows.put(report);
        Ok(answer)
    }

    /// All reports, in order, as a list. It takes no memory where the log got its reports in long lists alone. `AllocError`
    /// comes where a growth was refused; the log is then gone.
    pub fn into_reports(self) -> Result<Vec<Report, A>, AllocError>
        ensures all { IfOk result (λ list. list.items ≡ self) }
        ensures rises { OnOk result (IsStrictlySortedBy report_cmp self) }
        ensures limit { OnOk result (length self ≤ most_reports) }
    {
        let Log { rows, .. } = self;
        rows.into_list()
    }

    /// A log with the same reports. `AllocError` comes where a growth was refused, which changes nothing.
    pub fn copy(&self) -> Result<Log<A>, AllocError>
        ensures { IfOk result (λ c. c ≡ self.now) }
    {
        Ok(Log {
            rows: self.rows.copy()?,
            index: copied(&self.index)?,
            disputed: self.disputed.copy()?,
        })
    }
}

/// The law of arrivals, of the calls `add`, `union` and `add_all` that were not refused, in any order and with any repeats: a
/// log holds the set of all reports that were given to it, and where two logs were given the same reports they are equal.
pub fn same_reports_make_one_log()
    ensures set { (arrivals : List Arrival) → after_all arrivals [] ≡ in_order report_cmp (all_given arrivals) }
    ensures same { (a b : List Arrival) → ((r : PacketReport) → has report_cmp (all_given a) r ≡ has report_cmp (all_given b) r)
        → after_all a [] ≡ after_all b [] }
{}
