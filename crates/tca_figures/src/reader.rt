//! A statement, line by line.
ghost use Rattle.std.specs.Prelude.{◌≡◌, ◌≢◌, true, ◌++◌, ◌∷◌, [], IfErr, IsErrOf, MatchBool, MatchResult, OnOk, length};
ghost use Rattle.tca_figures.specs.Figures.{IsStatement, IsSummed};
ghost use Rattle.tca_figures.specs.Lines.{name_line};
ghost use Rattle.tca_figures.specs.inside.Progress.{Follows, FollowsAt, IsBehind, IsKept, IsOpened, IsSound, IsWrongSum, Progress, closed, ended, has_name, opened, unread};
ghost use Rattle.tca_accounts.specs.Plans.{is_name};
ghost use Rattle.tca_figures.specs.declared.reader.Refusal.TheVariants as refusals;
ghost use Rattle.tca_figures.specs.declared.reader.Stage.TheVariants as stages;

use crate::figures::{AccountFigures, Figures, SpanFigures};
use crate::lines::{name_in, number_behind, span_in, total_in};
use std::alloc::{AllocError, Global};
use std::marker::Model;
use std::{mem, str};
use tca_report::TIME_END;

// The most accounts of a statement.
const MOST_ACCOUNTS: usize = 256;

/// Which kind of line is next.
#[derive(Clone, Copy, Debug, PartialEq, Eq)]
pub(crate) enum Stage {
    Title,
    Period,
    Reports,
    Disputed,
    Unassigned,
    /// The name of the first account.
    Account,
    Total,
    /// A period of the account, or the name of the next one, or the end.
    Spans,
    /// None.
    Ended,
}

/// Why a line isn't taken.
#[derive(Clone, Copy, Debug, PartialEq, Eq)]
pub(crate) enum Refusal {
    /// It may not stand there.
    Line,
    /// It may, but the account before it has a total that isn't the sum of its periods.
    Sum,
    Memory,
}

impl From<AllocError> for Refusal {
    ghost use Rattle.std.specs.Prelude.{◌≡◌};
    ghost use Rattle.tca_figures.specs.declared.reader.Refusal.TheVariants.{Memory};

    ghost from_gives = { λ _ e. e ≡ Memory };

    fn from(_fault: AllocError) -> Refusal {
        Refusal::Memory
    }
}

/// What the lines so far say.
#[derive(Drop)]
pub(crate) struct Reader {
    alloc: Global,
    stage: Stage,
    period: u64,
    reports: u64,
    disputed: u64,
    unassigned: u64,
    /// The accounts whose lines are all read.
    accounts: Vec<AccountFigures>,
    /// The one whose lines are being read.
    account: AccountFigures,
}

impl Model for Reader {
    ghost use Rattle.tca_figures.specs.inside.Progress.{Progress};

    ghost Value = { Progress };

    ghost view = { λ r. record {
      stage = r.stage;
      stated = record { period = r.period; reports = r.reports; disputed = r.disputed; unassigned = r.unassigned; accounts = r.accounts.items };
      account = r.account;
    } };
}

impl Reader {
    /// Nothing is read yet.
    pub(crate) fn new(alloc: Global) -> Reader
        ensures { result ≡ unread }
    {
        Reader {
            alloc,
            stage: Stage::Title,
            period: 0,
            reports: 0,
            disputed: 0,
            unassigned: 0,
            accounts: Vec::new(alloc),
            account: AccountFigures::new(alloc),
        }
    }

    // Takes the first line.
    fn take_title(&mut self, line: &str) -> Result<(), Refusal>
        ensures taken { OnOk result (FollowsAt stages.Title self.old line.now self.new) }
        ensures only { (q : Progress) → FollowsAt stages.Title self.old line.now q → MatchResult result (λ _. self.new ≡ q) (λ e. e ≢ refusals.Line) }
        ensures same { OnOk result (self.new.stated.accounts ≡ self.old.stated.accounts) }
        ensures line { IfErr result (λ e. e ≡ refusals.Line) }
    {
        if line != "tcacct statement 1" {
            return Err(Refusal::Line);
        }
        self.stage = Stage::Period;
        Ok(())
    }

    // Takes the line of the length of a period.
    fn take_period(&mut self, line: &str) -> Result<(), Refusal>
        ensures taken { OnOk result (FollowsAt stages.Period self.old line.now self.new) }
        ensures only { (q : Progress) → FollowsAt stages.Period self.old line.now q → MatchResult result (λ _. self.new ≡ q) (λ e. e ≢ refusals.Line) }
        ensures same { OnOk result (self.new.stated.accounts ≡ self.old.stated.accounts) }
        ensures line { IfErr result (λ e. e ≡ refusals.Line) }
    {
        let Some(period) = number_behind("period", line) else {
            return Err(Refusal::Line);
        };
        if period == 0 || period >= TIME_END {
            return Err(Refusal::Line);
        }
        self.period = period;
        self.stage = Stage::Reports;
        Ok(())
    }

    // Takes the line of the number of reports.
    fn take_reports(&mut self, line: &str) -> Result<(), Refusal>
        ensures taken { OnOk result (FollowsAt stages.Reports self.old line.now self.new) }
        ensures only { (q : Progress) → FollowsAt stages.Reports self.old line.now q → MatchResult result (λ _. self.new ≡ q) (λ e. e ≢ refusals.Line) }
        ensures same { OnOk result (self.new.stated.accounts ≡ self.old.stated.accounts) }
        ensures line { IfErr result (λ e. e ≡ refusals.Line) }
    {
        let Some(reports) = number_behind("reports", line) else {
            return Err(Refusal::Line);
        };
        self.reports = reports;
        self.stage = Stage::Disputed;
        Ok(())
    }

    // Takes the line of the number of disputed identities.
    fn take_disputed(&mut self, line: &str) -> Result<(), Refusal>
        ensures taken { OnOk result (FollowsAt stages.Disputed self.old line.now self.new) }
        ensures only { (q : Progress) → FollowsAt stages.Disputed self.old line.now q → MatchResult result (λ _. self.new ≡ q) (λ e. e ≢ refusals.Line) }
        ensures same { OnOk result (self.new.stated.accounts ≡ self.old.stated.accounts) }
        ensures line { IfErr result (λ e. e ≡ refusals.Line) }
    {
        let Some(disputed) = number_behind("disputed", line) else {
            return Err(Refusal::Line);
        };
        self.disputed = disputed;
        self.stage = Stage::Unassigned;
        Ok(())
    }

    // Takes the line of the number of reports that no account owns.
    fn take_unassigned(&mut self, line: &str) -> Result<(), Refusal>
        ensures taken { OnOk result (FollowsAt stages.Unassigned self.old line.now self.new) }
        ensures only { (q : Progress) → FollowsAt stages.Unassigned self.old line.now q → MatchResult result (λ _. self.new ≡ q) (λ e. e ≢ refusals.Line) }
        ensures same { OnOk result (self.new.stated.accounts ≡ self.old.stated.accounts) }
        ensures line { IfErr result (λ e. e ≡ refusals.Line) }
    {
        let Some(unassigned) = number_behind("unassigned", line) else {
            return Err(Refusal::Line);
        };
        self.unassigned = unassigned;
        self.stage = Stage::Account;
        Ok(())
    }

    // Whether an account whose lines are all read has this name.
    fn has(&self, name: &str) -> bool
        ensures { result ≡ has_name name.now self.now.stated.accounts }
    {
        self.accounts.iter().any(|account| account.name() == name)
    }

    // Takes the line of the first account's name.
    fn take_name(&mut self, line: &str) -> Result<(), Refusal>
        requires { self.old.stage ≡ stages.Account }
        ensures taken { OnOk result (FollowsAt stages.Account self.old line.now self.new) }
        ensures only { (q : Progress) → FollowsAt stages.Account self.old line.now q → MatchResult result (λ _. self.new ≡ q) (λ e. e ≢ refusals.Line) }
        ensures same { OnOk result (self.new.stated.accounts ≡ self.old.stated.accounts) }
        ensures no_sum { IfErr result (λ e. e ≢ refusals.Sum) }
        ensures memory { IsErrOf result refusals.Memory → IsKept self.old line.now }
    {
        let Some(name) = name_in(line) else {
            return Err(Refusal::Line);
        };
        if self.accounts.len() >= MOST_ACCOUNTS || self.has(name) {
            return Err(Refusal::Line);
        }
        self.account = AccountFigures::named(self.alloc, name)?;
        self.stage = Stage::Total;
        Ok(())
    }

    // Takes the line of an account's figures in all.
    fn take_total(&mut self, line: &str) -> Result<(), Refusal>
        ensures taken { OnOk result (FollowsAt stages.Total self.old line.now self.new) }
        ensures only { (q : Progress) → FollowsAt stages.Total self.old line.now q → MatchResult result (λ _. self.new ≡ q) (λ e. e ≢ refusals.Line) }
        ensures same { OnOk result (self.new.stated.accounts ≡ self.old.stated.accounts) }
        ensures line { IfErr result (λ e. e ≡ refusals.Line) }
    {
        let Some(total) = total_in(line) else {
            return Err(Refusal::Line);
        };
        self.account.set_total(total);
        self.stage = Stage::Spans;
        Ok(())
    }

    // Whether a period is behind the last one of the account so far.
    fn is_behind(&self, index: u64) -> bool
        ensures { MatchBool result (IsBehind index self.now.account.spans) (¬ IsBehind index self.now.account.spans) }
    {
        match self.account.spans().last() {
            Some(span) => span.index < index,
            None => true,
        }
    }

    // Takes the figures of a period, where it is behind those before it.
    fn take_span(&mut self, span: SpanFigures) -> Result<(), Refusal>
        ensures taken { OnOk result (IsBehind span.index self.old.account.spans
            × (self.new ≡ record self.old { account = record self.old.account { spans = self.old.account.spans ++ span ∷ [] } })) }
        ensures refused { IsErrOf result refusals.Line → ¬ IsBehind span.index self.old.account.spans }
        ensures memory { IsErrOf result refusals.Memory → IsBehind span.index self.old.account.spans }
        ensures no_sum { IfErr result (λ e. e ≢ refusals.Sum) }
    {
        if !self.is_behind(span.index) {
            return Err(Refusal::Line);
        }
        self.account.push(span)?;
        Ok(())
    }

    // Puts the account behind those whose lines are all read, and begins with the next one.
    fn close(&mut self, next: AccountFigures) -> Result<(), AllocError>
        ensures { OnOk result (self.new ≡ record (closed self.old) { account = next }) }
    {
        let read = mem::replace(&mut self.account, next);
        self.accounts.push(read)?;
        Ok(())
    }

    // Takes the line of the next account's name.
    fn take_next_name(&mut self, name: &str) -> Result<(), Refusal>
        requires { is_name name.now ≡ true }
        ensures taken { OnOk result (IsOpened (closed self.old) (name_line name.now) self.new) }
        ensures summed { OnOk result (IsSummed self.old.account) }
        ensures only { (q : Progress) → IsOpened (closed self.old) (name_line name.now) q → MatchResult result (λ _. self.new ≡ q) (λ e. e ≢ refusals.Line) }
        ensures sum { IsErrOf result refusals.Sum → (¬ IsSummed self.old.account) × IsOpened (closed self.old) (name_line name.now) (opened name.now (closed self.old)) }
        ensures memory { IsErrOf result refusals.Memory → IsSummed self.old.account × IsOpened (closed self.old) (name_line name.now) (opened name.now (closed self.old)) }
        ensures kept { IsErrOf result refusals.Sum → self.new ≡ self.old }
    {
        if self.accounts.len() >= MOST_ACCOUNTS - 1
            || self.has(name)
            || self.account.name() == name
        {
            return Err(Refusal::Line);
        }
        if !self.account.is_summed() {
            return Err(Refusal::Sum);
        }
        let next = AccountFigures::named(self.alloc, name)?;
        self.close(next)?;
        self.stage = Stage::Total;
        Ok(())
    }

    // Takes the last line.
    fn take_end(&mut self) -> Result<(), Refusal>
        ensures taken { OnOk result (self.new ≡ ended self.old) }
        ensures summed { OnOk result (IsSummed self.old.account) }
        ensures no_line { IfErr result (λ e. e ≢ refusals.Line) }
        ensures sum { IsErrOf result refusals.Sum → ¬ IsSummed self.old.account }
        ensures memory { IsErrOf result refusals.Memory → IsSummed self.old.account }
        ensures kept { IsErrOf result refusals.Sum → self.new ≡ self.old }
    {
        if !self.account.is_summed() {
            return Err(Refusal::Sum);
        }
        self.close(AccountFigures::new(self.alloc))?;
        self.stage = Stage::Ended;
        Ok(())
    }

    // Takes the line behind an account's figures in all, or behind those of a period.
    fn take_behind_total(&mut self, line: &str) -> Result<(), Refusal>
        requires { self.old.stage ≡ stages.Spans }
        ensures taken { OnOk result (FollowsAt stages.Spans self.old line.now self.new) }
        ensures only { (q : Progress) → FollowsAt stages.Spans self.old line.now q → MatchResult result (λ _. self.new ≡ q) (λ e. e ≢ refusals.Line) }
        ensures sound { OnOk result (IsSound self.old → IsSound self.new) }
        ensures sum { IsErrOf result refusals.Sum → IsWrongSum self.old line.now }
        ensures memory { IsErrOf result refusals.Memory → IsKept self.old line.now }
        ensures kept { IsErrOf result refusals.Sum → self.new ≡ self.old }
    {
        if let Some(span) = span_in(self.period, line) {
            return self.take_span(span);
        }
        if line == "end" {
            return self.take_end();
        }
        match name_in(line) {
            Some(name) => self.take_next_name(name),
            None => Err(Refusal::Line),
        }
    }

    /// Takes the next line. It is refused as `Line` where it may not stand there, and as `Sum` where it may and the account before it has a total
    /// that isn't the sum of its periods.
    pub(crate) fn take(&mut self, line: &str) -> Result<(), Refusal>
        ensures taken { OnOk result (Follows self.old line.now self.new) }
        ensures only { (q : Progress) → Follows self.old line.now q → MatchResult result (λ _. self.new ≡ q) (λ e. e ≢ refusals.Line) }
        ensures sound { OnOk result (IsSound self.old → IsSound self.new) }
        ensures sum { IsErrOf result refusals.Sum → IsWrongSum self.old line.now }
        ensures memory { IsErrOf result refusals.Memory → IsKept self.old line.now }
        ensures kept { IsErrOf result refusals.Sum → self.new ≡ self.old }
    {
        match self.stage {
            Stage::Title => self.take_title(line),
            Stage::Period => self.take_period(line),
            Stage::Reports => self.take_reports(line),
            Stage::Disputed => self.take_disputed(line),
            Stage::Unassigned => self.take_unassigned(line),
            Stage::Account => self.take_name(line),
            Stage::Total => self.take_total(line),
            Stage::Spans => self.take_behind_total(line),
            Stage::Ended => Err(Refusal::Line),
        }
    }

    /// Takes the octets of the next line, which are without its line feed, as `take` does.
    pub(crate) fn take_octets(&mut self, line: &[u8]) -> Result<(), Refusal>
        ensures taken { OnOk result (Follows self.old line.now self.new) }
        ensures only { (q : Progress) → Follows self.old line.now q → MatchResult result (λ _. self.new ≡ q) (λ e. e ≢ refusals.Line) }
        ensures sound { OnOk result (IsSound self.old → IsSound self.new) }
        ensures sum { IsErrOf result refusals.Sum → IsWrongSum self.old line.now }
        ensures memory { IsErrOf result refusals.Memory → IsKept self.old line.now }
        ensures kept { IsErrOf result refusals.Sum → self.new ≡ self.old }
    {
        match str::from_utf8(line) {
            Ok(line) => self.take(line),
            Err(_) => Err(Refusal::Line),
        }
    }

    /// Whether the last line is read.
    pub(crate) fn is_ended(&self) -> bool
        ensures { MatchBool result (self.now.stage ≡ stages.Ended) (self.now.stage ≢ stages.Ended) }
    {
        self.stage == Stage::Ended
    }

    /// How many periods of the account are read.
    pub(crate) fn spans(&self) -> usize
        ensures { result ≡ length self.now.account.spans }
    {
        self.account.spans().len()
    }

    /// The statement with the accounts whose lines are all read.
    pub(crate) fn into_figures(self) -> Figures
        requires { IsStatement self.stated }
        ensures { result ≡ self.stated }
    {
        Figures {
            period: self.period,
            reports: self.reports,
            disputed: self.disputed,
            unassigned: self.unassigned,
            accounts: self.accounts,
        }
    }
}
