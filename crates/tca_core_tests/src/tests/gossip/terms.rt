//! Replicas whose plan has a term.
use super::{Row, replica_under, reports};
use crate::tests::samples::{Arrivals, LATE_ARRIVALS, TERMED};
use std::alloc::Global;
use tca_gossip::Replica;

// Takes reports one after the other.
fn takes(alloc: Global, replica: &mut Replica, rows: &[Row]) -> bool {
    for row in rows {
        let Some(list) = reports(alloc, &[*row]) else {
            return false;
        };
        if replica.take(&list).fresh != 1 {
            return false;
        }
    }
    true
}

// Whether the account has these octets and packets by colour.
fn has_total(replica: &Replica, octets: [u64; 3], packets: [u64; 3]) -> bool {
    let Ok(bill) = replica.totals() else {
        return false;
    };
    match bill.accounts.as_slice() {
        [tally] => (tally.total.octets(), tally.total.packets()) == (octets, packets),
        _ => false,
    }
}

// Whether a replica that takes all reports has their total.
fn bills_what_it_takes(alloc: Global, (rows, octets, packets): Arrivals) -> bool {
    let Some(mut replica) = replica_under(alloc, TERMED, 1) else {
        return false;
    };
    takes(alloc, &mut replica, rows) && has_total(&replica, octets, packets)
}

// Whether one that merges with another has it, where each has some of the reports, and the other one the last.
fn bills_what_it_merges(alloc: Global, (rows, octets, packets): Arrivals) -> bool {
    let Some((last, before)) = rows.split_last() else {
        return false;
    };
    let Some(mut one) = replica_under(alloc, TERMED, 1) else {
        return false;
    };
    let Some(mut two) = replica_under(alloc, TERMED, 2) else {
        return false;
    };
    takes(alloc, &mut one, before)
        && takes(alloc, &mut two, &[*last])
        && one.merge(&two).is_ok()
        && has_total(&one, octets, packets)
}

#[test]
fn late_reports_are_metered_in_their_terms(rt: HostRuntime) {
    for arrivals in LATE_ARRIVALS {
        assert!(rt; bills_what_it_takes(rt.alloc(), arrivals));
        assert!(rt; bills_what_it_merges(rt.alloc(), arrivals));
    }
}
