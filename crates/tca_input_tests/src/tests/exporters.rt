//! Captures that other exporters wrote.
mod pmacct;
mod softflowd;

use tca_report::{Gathered, Notes, gather};

fn holds(rt: &HostRuntime, capture: &[u8], messages: u64, not_reports: [u64; 7]) -> bool {
    let found = gather(rt.alloc(), capture, 0);
    let Ok(Gathered { reports, notes }) = found else {
        return false;
    };
    let same = notes
        == Notes {
            messages,
            not_reports,
            unplaced: 0,
            skipped: 0,
        };
    same && reports.is_empty()
}

fn of_softflowd(rt: &HostRuntime) -> bool {
    holds(rt, softflowd::CAPTURE, 2, [1, 24, 0, 0, 0, 0, 0])
}

fn of_pmacct(rt: &HostRuntime) -> bool {
    holds(rt, pmacct::CAPTURE, 24, [0, 98, 0, 0, 0, 0, 0])
}

#[test]
fn captures_of_other_exporters_are_read(rt: HostRuntime) {
    assert!(rt; of_softflowd(&rt) && of_pmacct(&rt));
}
