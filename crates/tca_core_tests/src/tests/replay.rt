//! Lanes and books by worked rows, by lanes that have no history, and with each growth refused in turn.
mod books;
mod lanes;
mod memory;
mod random;
mod settled;

use std::alloc::{AllocError, Allocator, Global};
use tca_accounts::Tally;
use tca_log::RowsIter;
use tca_meters::{Colour, Meter};
use tca_replay::Lane;
use tca_report::{Content, Identity, Report};

// The time of the first report of the worked rows.
const START: u64 = 1_700_000_000_000;

const HOUR: u64 = 3_600_000;

fn report(place: u32, late: u32, octets: u32, dscp: u8) -> Option<Report> {
    Report::new(
        Identity {
            domain: 7,
            session: 0,
            place,
        },
        Content {
            time: START + late as u64,
            octets,
            dscp,
            iface: 1,
        },
    )
}

fn put<M: Meter, A: Allocator + Copy>(
    lane: &mut Lane<M, A>,
    report: Report,
) -> Result<(), AllocError> {
    lane.reserve_row(&report)?;
    if !lane.contains(&report) && lane.len() < 4_194_304 {
        lane.put(report);
    }
    Ok(())
}

fn withdraw<M: Meter, A: Allocator + Copy>(lane: &mut Lane<M, A>, report: &Report) {
    if lane.contains(report) {
        lane.withdraw(report);
    }
}

// The tally of a lane that gets all rows at once.
fn fresh_tally<M: Meter + Drop, A: Allocator + Copy>(
    alloc: Global,
    meter: M,
    rows: RowsIter<'_, Report, A>,
) -> Result<Tally, AllocError> {
    let mut lane = Lane::new(alloc, meter, Colour::Green, HOUR, 65_536);
    tally_with(alloc, &mut lane, rows)
}

// The tally of a lane that gets these rows.
fn tally_with<M: Meter, A: Allocator + Copy>(
    alloc: Global,
    lane: &mut Lane<M>,
    rows: RowsIter<'_, Report, A>,
) -> Result<Tally, AllocError> {
    for row in rows {
        put(lane, *row)?;
    }
    lane.resume();
    lane.tally(alloc)
}

fn are_alike(one: &Tally, other: &Tally) -> bool {
    one.total == other.total && one.spans.as_slice() == other.spans.as_slice()
}
