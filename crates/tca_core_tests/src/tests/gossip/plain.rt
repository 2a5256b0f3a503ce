//! A world as plain lists: who took what, how much each holds of whom, and what was sent.
ghost use Rattle.std.specs.Prelude.{◌<◌};

use super::outcomes::Outcome;
use std::alloc::{AllocError, Global};
use tca_gossip::Step;
use tca_report::Report;

// The names of all replicas, of which a world has the first so many.
pub(super) const NAMES: [u32; 5] = [1, 2, 3, 4, 5];

// A message: by origin how much its sender held, or from where to where it sends.
#[derive(Clone, Copy)]
enum Sent {
    Counts([u32; 5]),
    Parts { from: [u32; 5], to: [u32; 5] },
}

#[derive(Drop)]
pub(super) struct Plain {
    alloc: Global,
    names: u32,
    // All that was new where it was taken, with the name of that place, in order.
    arrivals: Vec<(u32, Report)>,
    // By name and origin, how many of the origin's arrivals are held.
    held: [u32; 25],
    sent: Vec<Sent>,
}

// Where the numbers of a name stand.
fn index(name: u32) -> usize
    ensures { result < 5 }
{
    (name % 5) as usize
}

fn place(name: u32, origin: u32) -> usize
    ensures { result < 25 }
{
    (name % 5 * 5 + origin % 5) as usize
}

impl Plain {
    pub(super) fn new(alloc: Global, names: u32) -> Plain {
        Plain {
            alloc,
            names,
            arrivals: Vec::new(alloc),
            held: [0; 25],
            sent: Vec::new(alloc),
        }
    }

    pub(super) fn names(&self) -> u32 {
        self.names
    }

    fn is_name(&self, name: u32) -> bool {
        1 <= name && name <= self.names
    }

    fn count(&self, name: u32, origin: u32) -> u32 {
        self.held[place(name, origin)]
    }

    fn counts(&self, name: u32) -> [u32; 5] {
        let mut counts = [0; 5];
        for origin in NAMES {
            counts[index(origin)] = self.count(name, origin);
        }
        counts
    }

    // What a replica holds of an origin, in order.
    pub(super) fn chain(&self, name: u32, origin: u32) -> Result<Vec<Report>, AllocError> {
        let mut chain = Vec::new(self.alloc);
        for arrival in &self.arrivals {
            let (from, report) = *arrival;
            if from == origin && chain.len() < self.count(name, origin) as usize {
                chain.push(report)?;
            }
        }
        Ok(chain)
    }

    // The set of all that a replica holds, in order.
    pub(super) fn log(&self, name: u32) -> Result<Vec<Report>, AllocError> {
        let mut log = Vec::new(self.alloc);
        for origin in NAMES {
            let chain = self.chain(name, origin)?;
            for report in &chain {
                if !log.contains(report) {
                    log.push(*report)?;
                }
            }
        }
        log.sort_unstable();
        Ok(log)
    }

    fn take(&mut self, name: u32, reports: &[Report]) -> Result<Outcome, AllocError> {
        if !self.is_name(name) {
            return Ok(Outcome::Nothing);
        }
        let mut fresh: u64 = 0;
        for report in reports {
            let log = self.log(name)?;
            if !log.contains(report) {
                self.arrivals.push((name, *report))?;
                let own = place(name, name);
                self.held[own] = self.held[own].wrapping_add(1);
                fresh = fresh.wrapping_add(1);
            }
        }
        Ok(Outcome::Took(reports.len() as u64, fresh, None))
    }

    fn send(&mut self, message: Sent) -> Result<Outcome, AllocError> {
        let number = u32::try_from(self.sent.len()).unwrap_or(u32::MAX);
        self.sent.push(message)?;
        Ok(Outcome::Sent(number))
    }

    fn ask(&mut self, name: u32) -> Result<Outcome, AllocError> {
        if !self.is_name(name) {
            return Ok(Outcome::Nothing);
        }
        self.send(Sent::Counts(self.counts(name)))
    }

    fn answer(&mut self, name: u32, message: u32) -> Result<Outcome, AllocError> {
        match self.sent.get(message as usize).copied() {
            Some(Sent::Counts(since)) if self.is_name(name) => {
                let to = self.counts(name);
                let mut from = since;
                for i in 0..5 {
                    from[i] = from[i].min(to[i]);
                }
                self.send(Sent::Parts { from, to })
            }
            _ => Ok(Outcome::Nothing),
        }
    }

    fn deliver(&mut self, message: u32, name: u32) -> Outcome {
        match self.sent.get(message as usize).copied() {
            Some(Sent::Parts { from, to }) if self.is_name(name) => self.absorb(name, from, to),
            _ => Outcome::Nothing,
        }
    }

    fn absorb(&mut self, name: u32, from: [u32; 5], to: [u32; 5]) -> Outcome {
        for origin in NAMES {
            let (have, from) = (self.count(name, origin), from[index(origin)]);
            if from < to[index(origin)] && have < from {
                return Outcome::Gap { origin, have, from };
            }
        }
        let mut new: u64 = 0;
        for origin in NAMES {
            let (have, to) = (self.count(name, origin), to[index(origin)]);
            if from[index(origin)] < to && have < to {
                self.held[place(name, origin)] = to;
                new = new.wrapping_add(to.wrapping_sub(have) as u64);
            }
        }
        Outcome::Absorbed(new)
    }

    fn merge(&mut self, into: u32, other: u32) -> Outcome {
        if !self.is_name(into) || !self.is_name(other) {
            return Outcome::Nothing;
        }
        for origin in NAMES {
            let more = self.count(other, origin);
            self.held[place(into, origin)] = more.max(self.count(into, origin));
        }
        Outcome::Merged
    }

    pub(super) fn step(&mut self, step: &Step) -> Result<Outcome, AllocError> {
        match step {
            Step::Take { at, reports } => self.take(*at, reports),
            Step::Ask { at } => self.ask(*at),
            Step::Answer { at, message } => self.answer(*at, *message),
            Step::Deliver { message, to } => Ok(self.deliver(*message, *to)),
            Step::Merge { into, other } => Ok(self.merge(*into, *other)),
        }
    }
}
