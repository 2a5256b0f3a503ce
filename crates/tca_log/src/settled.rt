//! The reports of a log that are settled.
ghost use Rattle.std.specs.Prelude.{◌≡◌};
ghost use Rattle.std.specs.Iterator.{YieldsFirstRef, item_count};
ghost use Rattle.tca_log.specs.Disputes.{settled_of};

use crate::rows::{Rows, RowsIter};
use std::alloc::{Allocator, Global};
use std::marker::Model;
use tca_report::{Identity, Report};

/// The settled reports in order, borrowed from their log. Where identities ascend by and large as reports do, each is looked for among the
/// disputed ones near the one before.
#[derive(Drop)]
pub struct Settled<'a, A: Allocator + Copy = Global> {
    left: RowsIter<'a, Report, A>,
    disputed: &'a Rows<Identity, A>,
    near: usize,
}

impl<'a, A: Allocator + Copy> Model for Settled<'a, A> {
    ghost use Rattle.std.specs.Prelude.{List};
    ghost use Rattle.tca_report.specs.report.Reports.{PacketReport};
    ghost use Rattle.tca_log.specs.Disputes.{settled_of};

    ghost Value = { List PacketReport };

    ghost view = { λ s. settled_of s.disputed.now.rows s.left };
}

impl<'a, A: Allocator + Copy> Settled<'a, A> {
    pub(crate) fn new(rows: &'a Rows<Report, A>, disputed: &'a Rows<Identity, A>) -> Settled<'a, A>
        ensures { result ≡ settled_of disputed.now.rows rows.now.rows }
    {
        Settled {
            left: rows.iter(),
            disputed,
            near: 0,
        }
    }
}

impl<'a, A: Allocator + Copy> Iterator for Settled<'a, A> {
    type Item = &'a Report;

    ghost next_gives = { YieldsFirstRef (λ s. s) };

    ghost remaining = { item_count (λ s. s) };

    fn next(&mut self) -> Option<&'a Report> {
        while let Some(report) = self.left.next() {
            if !self.disputed.has_near(&mut self.near, &report.identity()) {
                return Some(report);
            }
        }
        None
    }
}
