//! What the tests of several modules read: reports under a plan with a term.

// A term of RFC 2697 with smaller bursts, from the time of the second of the three reports on.
pub(super) const TERM: &str =
    "[[account.term]]\nfrom = 1700000000100\nmeter = \"rfc2697\"\ncir = 1000\ncbs = 1000\nebs = 1000\n";

// A plan of one account, RFC 2697 blind, with the traffic of interface 1, and that term.
pub(super) const TERMED: &str = "\
period = 3600000\n\
[[account]]\nname = \"alpha\"\nmeter = \"rfc2697\"\ncir = 1000\ncbs = 2000\nebs = 1000\nkeys = [[7, 1]]\n\
[[account.term]]\nfrom = 1700000000100\nmeter = \"rfc2697\"\ncir = 1000\ncbs = 1000\nebs = 1000\n";

// Reports in the order in which they come, each its place, milliseconds after the first and octets; and the octets and the packets of
// the account by colour, under that plan.
pub(super) type Arrivals = (&'static [(u32, u32, u32)], [u64; 3], [u64; 3]);

// The three reports, and a late one last: before the term, a millisecond before it, as large as what is left then, and at its start.
pub(super) const LATE_ARRIVALS: [Arrivals; 5] = [
    (
        &[(0, 0, 1500), (1, 100, 1000), (2, 200, 800)],
        [2500, 800, 0],
        [2, 1, 0],
    ),
    (
        &[(0, 0, 1500), (1, 100, 1000), (2, 200, 800), (3, 50, 600)],
        [2500, 1400, 0],
        [2, 2, 0],
    ),
    (
        &[(0, 0, 1500), (1, 100, 1000), (2, 200, 800), (3, 99, 600)],
        [2500, 1400, 0],
        [2, 2, 0],
    ),
    (
        &[(0, 0, 1500), (1, 100, 1000), (2, 200, 800), (3, 99, 599)],
        [3099, 800, 0],
        [3, 1, 0],
    ),
    (
        &[(0, 0, 1500), (1, 100, 1000), (2, 200, 800), (3, 100, 600)],
        [2500, 600, 800],
        [2, 1, 1],
    ),
];
