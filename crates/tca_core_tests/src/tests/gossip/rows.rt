//! Worked rows: reports that come late or dispute one another, replicas that tell each other what they hold, and deltas that no
//! replica sent.
use super::acts::Act::{Absorb, Bill, Learn, Merge, Show, Take};
use super::acts::Table;
use super::acts::Who::{One, Two};
use super::outcomes::Outcome;
use super::{FIRST, Part, Row, SECOND, THIRD, delta, goes};
use std::alloc::Global;
use tca_join::JoinFault;

const LATE: Row = (3, 50, 600);

const OTHER: Row = (3, 60, 601);

const ANOTHER: Row = (3, 70, 602);

// The first replica takes the late report last, and then a second content of it. The second one takes these two the other way round, and
// then a third content.
const DISPUTED: Table = Table {
    lines: &[
        (
            One,
            Take(&[FIRST, SECOND, THIRD, SECOND]),
            Outcome::Took(4, 3, None),
        ),
        (One, Bill, Outcome::Bill([1500, 1000, 800], 3, 0)),
        (One, Take(&[LATE]), Outcome::Took(1, 1, None)),
        (One, Bill, Outcome::Bill([1500, 600, 1800], 4, 0)),
        (One, Take(&[OTHER]), Outcome::Took(1, 1, None)),
        (One, Bill, Outcome::Bill([1500, 1000, 800], 5, 1)),
        (
            Two,
            Take(&[FIRST, SECOND, THIRD, OTHER]),
            Outcome::Took(4, 4, None),
        ),
        (Two, Take(&[LATE]), Outcome::Took(1, 1, None)),
        (Two, Bill, Outcome::Bill([1500, 1000, 800], 5, 1)),
        (Two, Take(&[ANOTHER]), Outcome::Took(1, 1, None)),
        (Two, Bill, Outcome::Bill([1500, 1000, 800], 6, 1)),
    ],
};

#[test]
fn late_and_disputed_reports_are_metered_in_their_places(rt: HostRuntime) {
    assert!(rt; goes(rt.alloc(), (1, 2), &DISPUTED) == Some(true));
}

// A run that goes on from what isn't held is refused; then each tells the other, twice, and each merges with the other.
const TOLD: Table = Table {
    lines: &[
        (One, Take(&[FIRST, SECOND]), Outcome::Took(2, 2, None)),
        (Two, Take(&[SECOND, THIRD]), Outcome::Took(2, 2, None)),
        (
            One,
            Absorb(&[(2, 2, &[])]),
            Outcome::Gap {
                origin: 2,
                have: 0,
                from: 2,
            },
        ),
        (One, Learn, Outcome::Absorbed(2)),
        (Two, Learn, Outcome::Absorbed(2)),
        (One, Learn, Outcome::Absorbed(0)),
        (Two, Learn, Outcome::Absorbed(0)),
        (One, Show, Outcome::Holds(3, [2, 2, 0])),
        (Two, Show, Outcome::Holds(3, [2, 2, 0])),
        (One, Bill, Outcome::Bill([1500, 1000, 800], 3, 0)),
        (Two, Bill, Outcome::Bill([1500, 1000, 800], 3, 0)),
    ],
};

const MERGED: Table = Table {
    lines: &[
        (One, Take(&[FIRST, SECOND]), Outcome::Took(2, 2, None)),
        (Two, Take(&[SECOND, THIRD]), Outcome::Took(2, 2, None)),
        (One, Merge, Outcome::Merged),
        (One, Merge, Outcome::Merged),
        (One, Show, Outcome::Holds(3, [2, 2, 0])),
        (One, Bill, Outcome::Bill([1500, 1000, 800], 3, 0)),
        (Two, Show, Outcome::Holds(2, [0, 2, 0])),
    ],
};

#[test]
fn replicas_tell_each_other_what_they_hold(rt: HostRuntime) {
    assert!(rt; goes(rt.alloc(), (1, 2), &TOLD) == Some(true));
    assert!(rt; goes(rt.alloc(), (1, 2), &MERGED) == Some(true));
}

// Two replicas of one name, which must not be.
const CLASHED: Table = Table {
    lines: &[
        (One, Take(&[FIRST]), Outcome::Took(1, 1, None)),
        (Two, Take(&[SECOND]), Outcome::Took(1, 1, None)),
        (One, Merge, Outcome::Unmerged(JoinFault::Clash { key: 1 })),
        (One, Show, Outcome::Holds(1, [1, 0, 0])),
        (One, Bill, Outcome::Bill([1500, 0, 0], 1, 0)),
    ],
};

#[test]
fn replicas_of_one_name_clash(rt: HostRuntime) {
    assert!(rt; goes(rt.alloc(), (1, 1), &CLASHED) == Some(true));
}

// Deltas that no replica sent change nothing, and the one that goes on from what is held is absorbed after them.
const FORGED: Table = Table {
    lines: &[
        (One, Take(&[FIRST]), Outcome::Took(1, 1, None)),
        (One, Absorb(&[(2, 0, &[SECOND])]), Outcome::Absorbed(1)),
        (
            One,
            Absorb(&[(2, 0, &[THIRD])]),
            Outcome::Forked { origin: 2, at: 0 },
        ),
        (
            One,
            Absorb(&[(2, 0, &[SECOND, THIRD]), (3, 1, &[FIRST])]),
            Outcome::Gap {
                origin: 3,
                have: 0,
                from: 1,
            },
        ),
        (
            One,
            Absorb(&[(1, 0, &[FIRST, SECOND])]),
            Outcome::OwnAhead { have: 1, said: 2 },
        ),
        (
            One,
            Absorb(&[(1, 5, &[FIRST])]),
            Outcome::OwnAhead { have: 1, said: 6 },
        ),
        (
            One,
            Absorb(&[(3, 1, &[])]),
            Outcome::Gap {
                origin: 3,
                have: 0,
                from: 1,
            },
        ),
        (One, Absorb(&[(3, 0, &[])]), Outcome::Absorbed(0)),
        (One, Show, Outcome::Holds(2, [1, 1, 0])),
        (One, Bill, Outcome::Bill([1500, 1000, 0], 2, 0)),
        (
            One,
            Absorb(&[(2, 0, &[SECOND, THIRD])]),
            Outcome::Absorbed(1),
        ),
        (One, Show, Outcome::Holds(3, [1, 2, 0])),
        (One, Bill, Outcome::Bill([1500, 1000, 800], 3, 0)),
        (One, Take(&[SECOND, LATE]), Outcome::Took(2, 1, None)),
        (
            One,
            Absorb(&[(1, 0, &[FIRST, LATE, SECOND])]),
            Outcome::OwnAhead { have: 2, said: 3 },
        ),
        (One, Show, Outcome::Holds(4, [2, 2, 0])),
    ],
};

#[test]
fn forged_deltas_change_nothing(rt: HostRuntime) {
    assert!(rt; goes(rt.alloc(), (1, 2), &FORGED) == Some(true));
}

// Whether these runs make a delta, if there is memory for them.
fn makes_delta(alloc: Global, parts: &[Part]) -> Option<bool> {
    match delta(alloc, parts) {
        Some(made) => Some(made.is_some()),
        None => None,
    }
}

#[test]
fn runs_that_make_no_delta(rt: HostRuntime) {
    let alloc = rt.alloc();
    assert!(rt; makes_delta(alloc, &[(2, 0, &[FIRST]), (2, 0, &[FIRST])]) == Some(false));
    assert!(rt; makes_delta(alloc, &[(3, 0, &[]), (2, 0, &[])]) == Some(false));
    assert!(rt; makes_delta(alloc, &[(2, 4_194_304, &[FIRST])]) == Some(false));
    assert!(rt; makes_delta(alloc, &[(0, 0, &[]), (2, 4_194_303, &[FIRST])]) == Some(true));
}
