//! Any list of rows that come and go.
ghost use Rattle.tca_replay.specs.ChangeLaws.{RowsAreInOrder, RowsAreLeft, SameRowsSameTally, TallyIsOfRows};

use tca_meters::Meter;

/// The law of changes, of each meter. After any list of puts and withdrawals in any order, and then `resume`, the tally of a
/// lane is that of its rows, metered from time 0 on. These rise strictly, and are the reports that the last change of each
/// leaves. So where two lists of changes leave the same reports they leave the same tally.
pub fn changes_then_resume<M: Meter>()
    ensures tally { TallyIsOfRows M M.State M.rule }
    ensures order { RowsAreInOrder }
    ensures left { RowsAreLeft }
    ensures same { SameRowsSameTally M M.State M.rule }
{}
