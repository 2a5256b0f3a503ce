//! Which identities may stand twice, where they are of many domains or their places lie far apart: each marks a number that is made of
//! it, which few others have, so that few have to be sorted.
ghost use Rattle.std.specs.Prelude.{◌≡◌, ◌<◌, ◌≤◌, ◌^◌, IfOk, false, filter, get_or, length, map, nat_lt, replicate};
ghost use Rattle.tca_report.specs.declared.report.Identity.{Identity};
ghost use Rattle.tca_report.specs.report.Identities.{identity_cmp, identity_of};
ghost use Rattle.tca_log.specs.Rows.Ordered.{most_rows};
ghost use Rattle.tca_log.specs.inside.Additions.{times};
ghost use Rattle.tca_log.specs.inside.Logs.{count_at};
ghost use Rattle.tca_log.specs.inside.Numbers.{AreMarked, is_again, number};

use crate::marks::mark;
use crate::rows::Rows;
use std::alloc::{AllocError, Allocator};
use tca_report::{Identity, Report};

// Where the places of a domain and session begin among the numbers is told by a part of 2^31: 0.618 of it times the domain, and 0.414 of it
// times the session, so that they begin far apart, however many there are.
const PARTS: usize = 1 << 31;

const DOMAIN_STEP: usize = 1_327_217_885;

const SESSION_STEP: usize = 889_516_852;

// There are 2^24 marks at most, for as many reports as a log may have.
const MOST_BITS: u32 = 24;

// The number of an identity below a power of two. Places of one domain and session that lie close together have numbers apart.
fn number_of(identity: Identity, bits: u32) -> usize
    requires { bits ≤ 24 }
    ensures number { result ≡ number bits identity }
    ensures bound { result < 2 ^ bits }
{
    let domain = identity.domain as usize * DOMAIN_STEP;
    let session = identity.session as usize * SESSION_STEP;
    let first = (domain + session) % PARTS >> (31 - bits);
    (first + identity.place as usize) % (1 << bits)
}

// The power of two of which there are so many marks: four for each report at least.
fn bits_for(count: usize) -> u32
    requires { count ≤ most_rows }
    ensures { result ≤ 24 }
{
    MOST_BITS.min(count.next_power_of_two().ilog2() + 2)
}

// Marks the numbers of all reports' identities, and answers whether one was marked twice. None is marked yet.
fn mark_all<A: Allocator + Copy>(reports: &Rows<Report, A>, bits: u32, marks: &mut [u8]) -> bool
    requires bound { bits ≤ 24 }
    requires unmarked { marks.old ≡ replicate (2 ^ bits) 0 }
    ensures marked { AreMarked bits reports.now.rows marks.new }
    ensures apart { result ≡ false → (i : Identity) → get_or marks.new (number bits i) 0 < 2 }
{
    let mut again = false;
    for report in reports.iter() {
        if mark(marks, number_of(report.identity(), bits)) > 0 {
            again = true;
        }
    }
    again
}

// The identities of reports whose number is marked twice.
fn marked_twice<A: Allocator + Copy>(
    alloc: A,
    reports: &Rows<Report, A>,
    bits: u32,
    marks: &[u8],
) -> Result<Vec<Identity, A>, AllocError>
    requires bound { bits ≤ 24 }
    requires length { length marks.now ≡ 2 ^ bits }
    ensures { IfOk result (λ again. again.items ≡ filter (is_again bits marks.now) (map identity_of reports.now.rows)) }
{
    let mut again = Vec::new(alloc);
    for report in reports.iter() {
        let identity = report.identity();
        if marks[number_of(identity, bits)] > 1 {
            again.push(identity)?;
        }
    }
    Ok(again)
}

// Identities of reports: each that two or more have as often as they do, and some that one has. No number is marked yet.
fn found_by_marks<A: Allocator + Copy>(
    alloc: A,
    reports: &Rows<Report, A>,
    bits: u32,
    marks: &mut [u8],
) -> Result<Vec<Identity, A>, AllocError>
    requires bound { bits ≤ 24 }
    requires unmarked { marks.old ≡ replicate (2 ^ bits) 0 }
    ensures { IfOk result (λ some. (i : Identity) → nat_lt 1 (times identity_cmp i some.items) ≡ nat_lt 1 (count_at reports.now.rows i)) }
{
    if !mark_all(reports, bits, marks) {
        return Ok(Vec::new(alloc));
    }
    marked_twice(alloc, reports, bits, marks)
}

/// Identities of reports: each that two or more have as often as they do, and some that one has.
pub(crate) fn perhaps_repeated<A: Allocator + Copy>(
    reports: &Rows<Report, A>,
) -> Result<Vec<Identity, A>, AllocError>
    requires { length reports.now.rows ≤ most_rows }
    ensures { IfOk result (λ some. (i : Identity) → nat_lt 1 (times identity_cmp i some.items) ≡ nat_lt 1 (count_at reports.now.rows i)) }
{
    let alloc = reports.allocator();
    let bits = bits_for(reports.len());
    let mut marks = vec![in alloc; 0u8; 1 << bits]?;
    found_by_marks(alloc, reports, bits, marks.as_mut_slice())
}
