//! What replicas send each other: runs of chains.
ghost use Rattle.std.specs.Prelude.{◌≡◌, ◌-◌, ◌<◌, ◌↔◌, drop, true, false, IfOk, IfSome, IsTrue, None, Some, MatchOption};
ghost use Rattle.tca_gossip.specs.Runs.{AreRuns};

use std::alloc::{AllocError, Global};
use std::marker::Model;
use tca_join::{ByKey, Items, MaxOf};
use tca_log::rows::LIMIT;
use tca_report::Report;

// The most reports of a chain: as many as a log may have.
const MOST_REPORTS: u64 = LIMIT as u64;

/// How long the chain of each origin is, with no key for an empty one.
pub type Summary = ByKey<MaxOf>;

/// Whether two summaries count the same of each origin. It takes no memory.
pub fn are_same_counts(first: &Summary, second: &Summary) -> bool
    ensures { IsTrue result ↔ (first.now ≡ second.now) }
{
    let (ours, theirs) = (first.entries(), second.entries());
    if ours.len() != theirs.len() {
        return false;
    }
    for i in 0..ours.len() {
        let (one, other) = (&ours[i], &theirs[i]);
        if one.0 != other.0 || one.1 != other.1 {
            return false;
        }
    }
    true
}

/// Reports of an origin's chain, from a place on, counted from 0. Others may hold the list too.
#[derive(Drop)]
pub struct Run {
    pub origin: u32,
    pub start: u32,
    pub reports: Items<Report>,
}

impl Model for Run {
    ghost use Rattle.tca_gossip.specs.Runs.{RunView};

    ghost Value = { RunView };

    ghost view = { λ r. record { origin = r.origin; start = r.start; reports = r.reports } };
}

impl Run {
    /// The name of the replica whose arrivals these are.
    pub fn origin(&self) -> u32
        ensures value { result ≡ self.now.origin }
        ensures range { self.now.origin < 4294967296 }
    {
        self.origin
    }

    /// The place of the first report in its chain.
    pub fn start(&self) -> u32
        ensures { result ≡ self.now.start }
    {
        self.start
    }

    /// The reports.
    pub fn reports(&self) -> &[Report]
        ensures { result.now ≡ self.now.reports }
    {
        self.reports.as_slice()
    }

    /// What a chain of this length lacks of the reports, where the run starts within it. The list is shared where that is all of it,
    /// else they are copied.
    pub(crate) fn rest(&self, alloc: Global, have: usize) -> Result<Items<Report>, AllocError>
        ensures { IfOk result (λ rest. rest ≡ drop (have - self.now.start) self.now.reports) }
    {
        let skip = have.saturating_sub(self.start as usize);
        if skip == 0 {
            return self.reports.share();
        }
        let reports = self.reports.as_slice();
        let (_, rest) = reports.split_at(skip.min(reports.len()));
        let list = Vec::from_slice(alloc, rest)?;
        Items::of(alloc, list)
    }

    /// Whether both have the same reports of one origin from one place on. It takes no memory.
    pub fn is_same(&self, other: &Run) -> bool
        ensures { IsTrue result ↔ (self.now ≡ other.now) }
    {
        if self.origin != other.origin {
            return false;
        }
        if self.start != other.start {
            return false;
        }
        self.reports.as_slice() == other.reports.as_slice()
    }

    /// Whether two lists have the same runs in the same order. It takes no memory.
    pub fn are_same(first: &[Run], second: &[Run]) -> bool
        ensures { IsTrue result ↔ (first.now ≡ second.now) }
    {
        if first.len() != second.len() {
            return false;
        }
        for i in 0..first.len() {
            if !first[i].is_same(&second[i]) {
                return false;
            }
        }
        true
    }

    /// The same run once more. It shares the list, so no memory is taken: `AllocError` comes only where the list can have no owner
    /// more, and leaves this run as it was.
    pub fn copy(&self) -> Result<Run, AllocError>
        ensures { IfOk result (λ r. r ≡ self.now) }
    {
        Ok(Run {
            origin: self.origin,
            start: self.start,
            reports: self.reports.share()?,
        })
    }

    /// The same runs once more. `AllocError` comes where a growth was refused or a list can have no owner more, and leaves these runs
    /// as they were.
    pub fn copies(alloc: Global, runs: &[Run]) -> Result<Vec<Run>, AllocError>
        ensures { IfOk result (λ list. list.items ≡ runs.now) }
    {
        let mut list = Vec::with_capacity(alloc, runs.len())?;
        for run in runs {
            list.push(run.copy()?)?;
        }
        Ok(list)
    }
}

/// Runs of strictly ascending origins, each of which ends within the limit of a chain, 4,194,304 reports.
#[derive(Drop)]
pub struct Delta {
    runs: Vec<Run>,
}

impl Model for Delta {
    ghost use Rattle.std.specs.Prelude.{List};
    ghost use Rattle.tca_gossip.specs.Runs.{RunView, AreRuns};

    ghost Value = { List RunView };

    ghost view = { λ d. d.runs.items };

    ghost invariant = { λ d. AreRuns d.runs.items };
}

impl Delta {
    /// These runs, unless their origins don't strictly ascend or one ends past the limit of a chain. It takes no memory.
    pub fn of(runs: Vec<Run>) -> Option<Delta>
        ensures some { IfSome result (λ d. d ≡ runs.items) }
        ensures exact { MatchOption result (AreRuns runs.items → ⊥) (λ d. AreRuns runs.items) }
    {
        if are_runs(&runs) {
            Some(Delta { runs })
        } else {
            None
        }
    }

    /// These runs. It takes no memory.
    pub(crate) fn ascending(runs: Vec<Run>) -> Delta
        requires { AreRuns runs.items }
        ensures { result ≡ runs.items }
    {
        Delta { runs }
    }

    /// The runs, by ascending origin.
    pub fn runs(&self) -> &[Run]
        ensures all { result.now ≡ self.now }
        ensures right { AreRuns self.now }
    {
        &self.runs
    }

    /// Whether both have the same runs. It takes no memory.
    pub fn is_same(&self, other: &Delta) -> bool
        ensures { IsTrue result ↔ (self.now ≡ other.now) }
    {
        Run::are_same(&self.runs, &other.runs)
    }

    /// The same delta once more. `AllocError` comes where a growth was refused or a list can have no owner more, and leaves this delta
    /// as it was.
    pub fn copy(&self, alloc: Global) -> Result<Delta, AllocError>
        ensures { IfOk result (λ d. d ≡ self.now) }
    {
        Ok(Delta {
            runs: Run::copies(alloc, &self.runs)?,
        })
    }
}

// Whether origins strictly ascend and each run ends within the limit of a chain.
fn are_runs(runs: &[Run]) -> bool
    ensures yes { result ≡ true → AreRuns runs.now }
    ensures no { result ≡ false → AreRuns runs.now → ⊥ }
{
    let mut least: u64 = 0;
    for run in runs {
        let origin = run.origin as u64;
        let end = (run.start as u64).saturating_add(run.reports.len() as u64);
        if end > MOST_REPORTS || origin < least {
            return false;
        }
        least = origin + 1;
    }
    true
}
