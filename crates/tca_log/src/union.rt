//! Many reports at once: all of them or none.
ghost use Rattle.std.specs.Prelude.{◌≡◌, true, false, ◌+◌, ◌<◌, ◌≤◌, ◌++◌, [], List, map, not, length, IfOk, IfErr, OnOk, OnErr, IsOk, IsTrue, None};
ghost use Rattle.std.specs.List.Sorted.{IsStrictlySortedBy};
ghost use Rattle.tca_join.specs.Sets.{has, in_order};
ghost use Rattle.tca_report.specs.report.Reports.{report_cmp, most_reports};
ghost use Rattle.tca_report.specs.report.Identities.{identity_cmp};
ghost use Rattle.tca_log.specs.Arrivals.{Many, after};
ghost use Rattle.tca_log.specs.Disputes as disputes;
ghost use Rattle.tca_log.specs.Rows.Ordered.{put_each, without_each, AreApart, most_rows};
ghost use Rattle.tca_log.specs.Faults.{IsUnionRefused, IsRefusedBy};
ghost use Rattle.tca_log.specs.declared.fault.LogFault.TheVariants.{Full, Memory};
ghost use Rattle.tca_log.specs.LogJoin.{log_full};
ghost use Rattle.tca_log.specs.inside.Logs.{index_cmp, index_rows, IsKept, IsLog};

use crate::additions::{Additions, additions_of};
use crate::ascending::all_ascend;
use crate::by_identity::ByIdentity;
use crate::disputes::{disputes_of, disputes_where};
use crate::fault::LogFault;
use crate::index::index_of;
use crate::log::Log;
use crate::rows::{
    LIMIT, Rows, RowsIter, SHARE, are_beyond, ascend, count_beyond, difference, merged,
};
use crate::sets::{set_beside, set_where};
use std::alloc::{AllocError, Allocator};
use tca_join::Items;
use tca_report::{Identity, Report};

impl<A: Allocator + Copy> Log<A> {
    /// Adds all reports of another log, and answers how many were new. `Full` comes exactly where both have
    /// more than 4,194,304 reports together, and `Memory` where a growth was refused; both leave the log as
    /// it was. Where nothing is new no memory is taken.
    pub fn union(&mut self, other: &Log<A>) -> Result<u32, LogFault>
        ensures ok { OnOk result (self.new ≡ after (Many other.now) self.old) }
        ensures count { IfOk result (λ n. n + length self.old ≡ length self.new) }
        ensures err { OnErr result (self.new ≡ self.old) }
        ensures fault { IfErr result (λ e. IsUnionRefused e (in_order report_cmp (self.old ++ other.now))) }
        ensures nothing { in_order report_cmp (self.old ++ other.now) ≡ self.old → IsOk result }
    {
        let new = other.rows.count_beyond(&self.rows);
        if new == 0 {
            return Ok(0);
        }
        if new > LIMIT - self.rows.len() {
            return Err(LogFault::Full);
        }
        let news = other
            .rows
            .difference(self.rows.allocator(), new, &self.rows)?;
        take_in(
            &mut self.rows,
            &mut self.index,
            &mut self.disputed,
            news,
            false,
        )?;
        Ok(new as u32)
    }

    /// How many reports of a set the log doesn't have. Where they are many it goes through both once; it takes no memory.
    pub fn count_new(&self, set: &[Report]) -> usize
        requires { IsStrictlySortedBy report_cmp set.now }
        ensures count { result + length self.now ≡ length (in_order report_cmp (self.now ++ set.now)) }
        ensures rises { IsStrictlySortedBy report_cmp self.now }
    {
        count_new(&self.rows, set)
    }

    /// Which reports of a set the log doesn't have, in their order. Where they are many it goes through both once. `AllocError`
    /// comes where a growth was refused, which changes nothing.
    pub fn are_new(&self, set: &[Report]) -> Result<Vec<bool, A>, AllocError>
        requires { IsStrictlySortedBy report_cmp set.now }
        ensures { IfOk result (λ new. new.items ≡ map (λ q. not (has report_cmp self.now q)) set.now) }
    {
        are_beyond(self.rows.allocator(), set, &self.rows)
    }

    // Whether the log and another one together have more reports than a log may have. It takes no memory.
    pub(crate) fn is_over_with(&self, other: &Log<A>) -> bool
        ensures { result ≡ log_full self.now other.now }
    {
        other.rows.count_beyond(&self.rows) > LIMIT - self.rows.len()
    }

    /// Adds all reports of a list in any order, where some may stand more than once, and answers how many were
    /// new. It sorts the list first, so it is faster than adding one by one. `Full` comes exactly where the log
    /// would have more than 4,194,304 reports, and `Memory` where a growth was refused; both leave the log as it
    /// was. Where nothing is new it isn't refused. The list is dropped.
    pub fn add_all(&mut self, reports: Vec<Report, A>) -> Result<u32, LogFault>
        ensures ok { OnOk result (self.new ≡ after (Many reports.items) self.old) }
        ensures count { IfOk result (λ n. n + length self.old ≡ length self.new) }
        ensures err { OnErr result (self.new ≡ self.old) }
        ensures fault { IfErr result (λ e. IsUnionRefused e (in_order report_cmp (self.old ++ reports.items))) }
        ensures nothing { in_order report_cmp (self.old ++ reports.items) ≡ self.old → IsOk result }
    {
        let alone = are_alone(&self.rows, &reports);
        let news = news_in(self.rows.allocator(), &self.rows, reports, alone)?;
        let new = news.len();
        if new == 0 {
            return Ok(0);
        }
        take_in(
            &mut self.rows,
            &mut self.index,
            &mut self.disputed,
            news,
            alone,
        )?;
        Ok(new as u32)
    }
}

impl<A: Allocator + Copy> Log<A> {
    /// Takes the reports of a list, where it has none, they ascend and are at most 4,194,304, and answers whether it did. It holds the
    /// list with its other owners then, and takes memory for a copy, but makes none before another report comes. `AllocError` comes where
    /// a growth was refused, or the list can have no owner more, which leaves the log as it was.
    pub fn take_shared(&mut self, list: &Items<Report, A>) -> Result<bool, AllocError>
        ensures new { IfOk result (λ took. took ≡ true → self.new ≡ list.now) }
        ensures none { IfOk result (λ took. took ≡ true → self.old ≡ []) }
        ensures rises { IfOk result (λ took. took ≡ true → IsStrictlySortedBy report_cmp list.now) }
        ensures limit { IfOk result (λ took. took ≡ true → length list.now ≤ most_reports) }
        ensures all { IfOk result (λ took. self.old ≡ [] → IsStrictlySortedBy report_cmp list.now → length list.now ≤ most_reports → took ≡ true) }
        ensures kept { IfOk result (λ took. took ≡ false → self.new ≡ self.old) }
        ensures err { OnErr result (self.new ≡ self.old) }
    {
        if self.rows.len() > 0 || list.len() > LIMIT {
            return Ok(false);
        }
        let alone = all_ascend(list.as_slice());
        if !rise(list.as_slice(), alone) {
            return Ok(false);
        }
        let news = Rows::of_shared(self.rows.allocator(), list.share()?)?;
        take_in(
            &mut self.rows,
            &mut self.index,
            &mut self.disputed,
            news,
            alone,
        )?;
        Ok(true)
    }

    /// Adds the reports of a list that may be shared, as `add_all` does. Where the log has none it holds their set with its other owners,
    /// if that is the list or stands beside it; else it takes the list, or a copy where it has other owners. `Full` comes only where the
    /// log would have more than 4,194,304 reports, and `Memory` where a growth was refused, also that of the copy, or the list can have no
    /// owner more; both leave the log as it was. Unlike `add_all` it may be refused memory also where nothing is new.
    pub fn add_list(&mut self, list: Items<Report, A>) -> Result<u32, LogFault>
        ensures ok { OnOk result (self.new ≡ after (Many list) self.old) }
        ensures count { IfOk result (λ n. n + length self.old ≡ length self.new) }
        ensures err { OnErr result (self.new ≡ self.old) }
        ensures full { IfErr result (λ e. e ≡ Full → most_reports < length (in_order report_cmp (self.old ++ list))) }
    {
        if self.take_shared(&list)? {
            return Ok(list.len() as u32);
        }
        if let Some(set) = set_beside(&list)? {
            return self.add_set(set);
        }
        let reports = list.into_vec(self.rows.allocator())?;
        self.add_all(reports)
    }

    /// Adds the reports of a set that may be shared, as `add_list` does. `Full` comes exactly where the log would have more than 4,194,304
    /// reports.
    pub fn add_set(&mut self, set: Items<Report, A>) -> Result<u32, LogFault>
        requires { IsStrictlySortedBy report_cmp set }
        ensures ok { OnOk result (self.new ≡ after (Many set) self.old) }
        ensures count { IfOk result (λ n. n + length self.old ≡ length self.new) }
        ensures err { OnErr result (self.new ≡ self.old) }
        ensures full { IfErr result (λ e. e ≡ Full → most_reports < length (in_order report_cmp (self.old ++ set))) }
        ensures memory { IfErr result (λ e. e ≡ Memory → length (in_order report_cmp (self.old ++ set)) ≤ most_reports) }
    {
        let new = count_new(&self.rows, set.as_slice());
        if new == 0 {
            return Ok(0);
        }
        if new > LIMIT - self.rows.len() {
            return Err(LogFault::Full);
        }
        let alone = are_alone(&self.rows, set.as_slice());
        let news = news_of_set(self.rows.allocator(), &self.rows, set, new)?;
        take_in(
            &mut self.rows,
            &mut self.index,
            &mut self.disputed,
            news,
            alone,
        )?;
        Ok(new as u32)
    }
}

// Whether reports ascend, which may be known.
fn rise(reports: &[Report], ascends: bool) -> bool
    requires { IsTrue ascends → IsStrictlySortedBy report_cmp reports.now }
    ensures rises { IsTrue result → IsStrictlySortedBy report_cmp reports.now }
    ensures all { IsStrictlySortedBy report_cmp reports.now → IsTrue result }
{
    ascends || ascend(reports)
}

// Whether there are no rows, and the reports ascend so that no two have one identity.
fn are_alone<A: Allocator + Copy>(rows: &Rows<Report, A>, reports: &[Report]) -> bool
    ensures none { IsTrue result → rows.now.rows ≡ [] }
    ensures rises { IsTrue result → IsStrictlySortedBy report_cmp reports.now }
    ensures alone { IsTrue result → disputes.disputed reports.now ≡ [] }
{
    rows.len() == 0 && all_ascend(reports)
}

// Those of a list, which may be known to ascend, that are not among the rows, unless both are too many together.
fn news_in<A: Allocator + Copy>(
    alloc: A,
    rows: &Rows<Report, A>,
    reports: Vec<Report, A>,
    ascends: bool,
) -> Result<Rows<Report, A>, LogFault>
    requires { IsTrue ascends → IsStrictlySortedBy report_cmp reports.items }
    ensures news { IfOk result (λ news. news.rows ≡ without_each report_cmp rows.now.rows (in_order report_cmp reports.items)) }
    ensures few { OnOk result (length rows.now.rows + length (without_each report_cmp rows.now.rows (in_order report_cmp reports.items)) ≤ most_rows) }
    ensures fault { IfErr result (λ e. IsRefusedBy e (length rows.now.rows + length (without_each report_cmp rows.now.rows (in_order report_cmp reports.items)))) }
    ensures nothing { length (without_each report_cmp rows.now.rows (in_order report_cmp reports.items)) ≡ 0 → IsOk result }
{
    let set = set_where(reports, ascends);
    let new = count_new(rows, &set);
    if new > LIMIT - rows.len() {
        return Err(LogFault::Full);
    }
    let news = news_of(alloc, rows, set, new)?;
    Ok(news)
}

// How many of a set are not among the rows.
fn count_new<A: Allocator + Copy>(rows: &Rows<Report, A>, set: &[Report]) -> usize
    requires { IsStrictlySortedBy report_cmp set.now }
    ensures { result ≡ length (without_each report_cmp rows.now.rows set.now) }
{
    if rows.len() == 0 {
        return set.len();
    }
    count_beyond(RowsIter::of(set), set.len(), rows)
}

// Those of a set that are not among the rows, of which there are so many: the set itself where all are new.
fn news_of<A: Allocator + Copy>(
    alloc: A,
    rows: &Rows<Report, A>,
    set: Vec<Report, A>,
    new: usize,
) -> Result<Rows<Report, A>, AllocError>
    requires rises { IsStrictlySortedBy report_cmp set.items }
    requires new { new ≡ length (without_each report_cmp rows.now.rows set.items) }
    requires few { new ≤ most_rows }
    ensures news { IfOk result (λ news. news.rows ≡ without_each report_cmp rows.now.rows set.items) }
    ensures nothing { new ≡ 0 → IsOk result }
{
    if new == set.len() {
        return Rows::of_ascending(alloc, set);
    }
    difference(alloc, RowsIter::of(&set), set.len(), new, rows)
}

// Those of a set that others may hold too that are not among the rows, of which there are so many: the set itself where all are new.
fn news_of_set<A: Allocator + Copy>(
    alloc: A,
    rows: &Rows<Report, A>,
    set: Items<Report, A>,
    new: usize,
) -> Result<Rows<Report, A>, AllocError>
    requires rises { IsStrictlySortedBy report_cmp set }
    requires new { new ≡ length (without_each report_cmp rows.now.rows set) }
    requires few { new ≤ most_rows }
    ensures { IfOk result (λ news. news.rows ≡ without_each report_cmp rows.now.rows set) }
{
    let list = set.as_slice();
    if new == list.len() {
        return Rows::of_shared(alloc, set);
    }
    difference(alloc, RowsIter::of(list), list.len(), new, rows)
}

// Puts reports that are new into a log's parts. A log without reports takes them as they are, without an index. It may be known
// that no two of them have one identity.
fn take_in<A: Allocator + Copy>(
    rows: &mut Rows<Report, A>,
    index: &mut Option<Rows<ByIdentity, A>>,
    disputed: &mut Rows<Identity, A>,
    news: Rows<Report, A>,
    alone: bool,
) -> Result<(), AllocError>
    requires log { IsKept rows.old.rows (index_rows index.old) disputed.old.rows }
    requires rises { IsStrictlySortedBy report_cmp news.rows }
    requires apart { AreApart report_cmp news.rows rows.old.rows }
    requires few { length rows.old.rows + length news.rows ≤ most_rows }
    requires alone { IsTrue alone → disputes.disputed news.rows ≡ [] }
    ensures ok { OnOk result (rows.new.rows ≡ put_each report_cmp news.rows rows.old.rows) }
    ensures err { OnErr result (rows.new.rows ≡ rows.old.rows) }
    ensures log { IsKept rows.new.rows (index_rows index.new) disputed.new.rows }
{
    if rows.len() == 0 {
        *disputed = disputes_where(&news, alone)?;
        *rows = news;
        *index = None;
        return Ok(());
    }
    if index.is_none() && news.len() >= rows.len() / SHARE {
        return take_many(rows, disputed, &news);
    }
    let mut kept = index_of(rows, index.take())?;
    let outcome = take_with_index(rows, &mut kept, disputed, news);
    *index = Some(kept);
    outcome
}

// Puts many reports that are new into a log that keeps no index, and looks for disputes among all of them.
fn take_many<A: Allocator + Copy>(
    rows: &mut Rows<Report, A>,
    disputed: &mut Rows<Identity, A>,
    news: &Rows<Report, A>,
) -> Result<(), AllocError>
    requires log { IsKept rows.old.rows None disputed.old.rows }
    requires rises { IsStrictlySortedBy report_cmp news.now.rows }
    requires apart { AreApart report_cmp news.now.rows rows.old.rows }
    requires few { length rows.old.rows + length news.now.rows ≤ most_rows }
    ensures ok { OnOk result (rows.new.rows ≡ put_each report_cmp news.now.rows rows.old.rows) }
    ensures err { OnErr result (rows.new.rows ≡ rows.old.rows) }
    ensures log { IsKept rows.new.rows None disputed.new.rows }
{
    let all = merged(rows, news)?;
    *disputed = disputes_of(&all)?;
    *rows = all;
    Ok(())
}

// Puts reports that are new into a log's three parts.
fn take_with_index<A: Allocator + Copy>(
    rows: &mut Rows<Report, A>,
    index: &mut Rows<ByIdentity, A>,
    disputed: &mut Rows<Identity, A>,
    news: Rows<Report, A>,
) -> Result<(), AllocError>
    requires log { IsLog rows.old.rows index.old.rows disputed.old.rows }
    requires rises { IsStrictlySortedBy report_cmp news.rows }
    requires apart { AreApart report_cmp news.rows rows.old.rows }
    requires few { length rows.old.rows + length news.rows ≤ most_rows }
    ensures ok { OnOk result (rows.new.rows ≡ put_each report_cmp news.rows rows.old.rows) }
    ensures err { OnErr result (rows.new.rows ≡ rows.old.rows) }
    ensures log { IsLog rows.new.rows index.new.rows disputed.new.rows }
{
    let additions = additions_of(index, disputed, &news)?;
    rows.put_all(&news)?;
    if let Err(refused) = put_additions(index, disputed, additions) {
        rows.withdraw_all(&news);
        return Err(refused);
    }
    Ok(())
}

// Puts what is new into both, or into none.
fn put_additions<A: Allocator + Copy>(
    index: &mut Rows<ByIdentity, A>,
    disputed: &mut Rows<Identity, A>,
    additions: Additions<A>,
) -> Result<(), AllocError>
    requires apart { AreApart index_cmp additions.fresh index.old.rows }
    requires few { length index.old.rows + length additions.fresh ≤ most_rows }
    requires apart_disputed { AreApart identity_cmp additions.newly_disputed disputed.old.rows }
    requires few_disputed { length disputed.old.rows + length additions.newly_disputed ≤ most_rows }
    ensures index { OnOk result (index.new.rows ≡ put_each index_cmp additions.fresh index.old.rows) }
    ensures disputed { OnOk result (disputed.new.rows ≡ put_each identity_cmp additions.newly_disputed disputed.old.rows) }
    ensures err { OnErr result (index.new.rows ≡ index.old.rows) }
    ensures err_disputed { OnErr result (disputed.new.rows ≡ disputed.old.rows) }
{
    let Additions {
        fresh,
        newly_disputed,
    } = additions;
    disputed.put_all(&newly_disputed)?;
    if let Err(refused) = index.take_all(fresh) {
        disputed.withdraw_all(&newly_disputed);
        return Err(refused);
    }
    Ok(())
}
