//! What one more report changes.
ghost use Rattle.tca_log.specs.NextLaws.{UndisputedNext, DisputedNext, KeptNext, CountNext, ReportsNext, NewIsNew, WithdrawnIsThere};

/// The law of one more report. By what it was to the set, as `add` answers, it comes to the undisputed reports, takes away
/// the one that was undisputed until now, or changes none of them; and so for those of them that a test keeps, as the
/// reports of one account. A report that comes was none of them before, and one that is taken away was.
pub fn one_more_report()
    ensures undisputed { UndisputedNext }
    ensures disputed { DisputedNext }
    ensures kept { KeptNext }
    ensures count { CountNext }
    ensures reports { ReportsNext }
    ensures new { NewIsNew }
    ensures there { WithdrawnIsThere }
{}
