//! A report of one packet, and the order of reports.
ghost use Rattle.std.specs.Prelude.{◌≡◌, ◌+◌, ◌*◌, ◌<◌};
ghost use Rattle.std.specs.Ordering.{is_eq};
ghost use Rattle.std.specs.Cmp.{IsTotalOrder, eq_by_cmp_equiv, partial_order_from_agreeing_total, partial_equiv_from_equiv};
ghost use Rattle.std.proofs.Common.{refl, Some};
ghost use Rattle.std.specs.declared.cmp.Ordering.TheVariants.{Equal};
ghost use Rattle.tca_report.specs.report.Reports.{PacketReport, InRange, reported, ranged, report_cmp, report_total};
ghost use Rattle.tca_report.specs.report.Identities.{identity_cmp, identity_of, identity_total};
ghost use Rattle.tca_report.specs.declared.report.Identity.{Identity};

use std::cmp::Ordering;
use std::marker::Model;

/// Which record a report is of: the observation domain that exported it, the transport session by which it came (RFC 7011,
/// sections 2 and 3.1), and its place among the data records of both. Identities are ordered by domain, session and
/// place, each ascending.
#[derive(Clone, Copy, Debug)]
pub struct Identity {
    /// The observation domain.
    pub domain: u32,
    /// The number of the transport session, which the operator gives. Sessions of one domain have distinct numbers, since
    /// each counts its data records for itself.
    pub session: u32,
    /// The place in domain and session, modulo 2^32.
    pub place: u32,
}

impl Identity {
    // The identity as one number, in the order of identities: most of what sorting them costs is comparing.
    fn one_number(&self) -> u128
        ensures value { result ≡ (self.now.domain * 4294967296 + self.now.session) * 4294967296 + self.now.place }
        ensures session { self.now.session < 4294967296 }
        ensures place { self.now.place < 4294967296 }
    {
        let origin = self.domain as u64 * 4_294_967_296 + self.session as u64;
        origin as u128 * 4_294_967_296 + self.place as u128
    }
}

impl PartialEq for Identity {
    ghost eq = { λ a b. is_eq (identity_cmp a b) };

    ghost laws = { partial_equiv_from_equiv (eq_by_cmp_equiv identity_total) };

    fn eq(&self, other: &Identity) -> bool {
        self.cmp(other).is_eq()
    }
}

impl Eq for Identity {
    ghost laws = { eq_by_cmp_equiv identity_total };
}

impl PartialOrd for Identity {
    ghost partial_cmp = { λ a b. Some (identity_cmp a b) };

    ghost laws = { partial_order_from_agreeing_total identity_cmp identity_total (λ _ _. refl) (λ _ _. refl) };

    fn partial_cmp(&self, other: &Identity) -> Option<Ordering> {
        Some(self.cmp(other))
    }
}

impl Ord for Identity {
    ghost cmp = { identity_cmp };

    ghost total = { identity_total };

    ghost matches_partial_cmp = { λ _ _. refl };

    ghost matches_eq = { λ _ _. refl };

    fn cmp(&self, other: &Identity) -> Ordering {
        self.one_number().cmp(&other.one_number())
    }
}

/// What a report holds of its packet.
#[derive(Clone, Copy, Debug, PartialEq, Eq)]
pub struct Content {
    /// Milliseconds from 1970 UTC, below 2^48.
    pub time: u64,
    /// Octets of the IP packet, 1 to 65,575.
    pub octets: u32,
    /// The code point of RFC 2474, at most 63.
    pub dscp: u8,
    /// The ingress interface, 0 where none was told.
    pub iface: u32,
}

/// Times are below this, in milliseconds from 1970 UTC.
pub const TIME_END: u64 = 1 << 48;

// The most octets of a packet: 40 of an IPv6 header, and 65,535 behind it.
pub(crate) const MOST_OCTETS: u32 = 65_575;

// The highest code point (RFC 2474).
pub(crate) const MOST_DSCP: u8 = 63;

// The most reports of a log, and so of an export.
pub(crate) const MOST_REPORTS: u32 = 4_194_304;

// A time is kept as its upper 16 bits and its lower 32.
const LOW_END: u64 = 1 << 32;

/// A report of one packet, in 28 octets of memory. Reports are ordered by time, domain, session, place, octets, code point and
/// interface, each ascending.
#[derive(Clone, Copy, Debug)]
pub struct Report {
    time_low: u32,
    domain: u32,
    session: u32,
    place: u32,
    octets: u32,
    iface: u32,
    time_high: u16,
    dscp: u8,
}

impl Model for Report {
    ghost use Rattle.tca_report.specs.report.Reports.{PacketReport, InRange};
    ghost use Rattle.std.specs.Prelude.{◌+◌, ◌*◌, ◌/◌, ◌%◌, ◌<◌};

    ghost Value = { PacketReport };

    ghost view = { λ r. record { time = r.time_high * 4294967296 + r.time_low; domain = r.domain; session = r.session; place = r.place; octets = r.octets; dscp = r.dscp; iface = r.iface } };

    ghost invariant = { λ r. InRange (record { time = r.time_high * 4294967296 + r.time_low; domain = r.domain; session = r.session; place = r.place; octets = r.octets; dscp = r.dscp; iface = r.iface }) × (r.time_low < 4294967296) };

    ghost inverse = { λ r. record { time_low = r.time % 4294967296; domain = r.domain; session = r.session; place = r.place; octets = r.octets; iface = r.iface; time_high = r.time / 4294967296; dscp = r.dscp } };
}

impl Report {
    // The time, in milliseconds from 1970 UTC.
    fn time(&self) -> u64
        ensures { result ≡ self.now.time }
    {
        self.time_high as u64 * LOW_END + self.time_low as u64
    }

    /// The report of this content; None where the content is out of range.
    pub fn new(identity: Identity, content: Content) -> Option<Report>
        ensures { result ≡ ranged (reported identity content) }
    {
        if content.time < TIME_END
            && content.octets >= 1
            && content.octets <= MOST_OCTETS
            && content.dscp <= MOST_DSCP
        {
            Some(Report {
                time_low: (content.time % LOW_END) as u32,
                domain: identity.domain,
                session: identity.session,
                place: identity.place,
                octets: content.octets,
                iface: content.iface,
                time_high: (content.time / LOW_END) as u16,
                dscp: content.dscp,
            })
        } else {
            None
        }
    }

    /// Which record the report is of.
    pub fn identity(&self) -> Identity
        ensures { result ≡ identity_of self.now }
    {
        Identity {
            domain: self.domain,
            session: self.session,
            place: self.place,
        }
    }

    /// What the report holds of its packet.
    pub fn content(&self) -> Content
        ensures value { result ≡ record { time = self.now.time; octets = self.now.octets; dscp = self.now.dscp; iface = self.now.iface } }
        ensures range { InRange self.now }
    {
        Content {
            time: self.time(),
            octets: self.octets,
            dscp: self.dscp,
            iface: self.iface,
        }
    }
}

impl PartialEq for Report {
    ghost eq = { λ a b. is_eq (report_cmp a b) };

    ghost laws = { partial_equiv_from_equiv (eq_by_cmp_equiv report_total) };

    // Field by field and without a branch, so that several are compared at once: whole lists are.
    fn eq(&self, other: &Report) -> bool {
        (self.time_low == other.time_low)
            & (self.domain == other.domain)
            & (self.session == other.session)
            & (self.place == other.place)
            & (self.octets == other.octets)
            & (self.iface == other.iface)
            & (self.time_high == other.time_high)
            & (self.dscp == other.dscp)
    }
}

impl Eq for Report {
    ghost laws = { eq_by_cmp_equiv report_total };
}

impl PartialOrd for Report {
    ghost partial_cmp = { λ a b. Some (report_cmp a b) };

    ghost laws = { partial_order_from_agreeing_total report_cmp report_total (λ _ _. refl) (λ _ _. refl) };

    fn partial_cmp(&self, other: &Report) -> Option<Ordering> {
        Some(self.cmp(other))
    }
}

impl Ord for Report {
    ghost cmp = { report_cmp };

    ghost total = { report_total };

    ghost matches_partial_cmp = { λ _ _. refl };

    ghost matches_eq = { λ _ _. refl };

    fn cmp(&self, other: &Report) -> Ordering {
        let by_time = self.time().cmp(&other.time());
        if by_time.is_ne() {
            return by_time;
        }
        self.identity()
            .cmp(&other.identity())
            .then(self.octets.cmp(&other.octets))
            .then(self.dscp.cmp(&other.dscp))
            .then(self.iface.cmp(&other.iface))
    }
}

/// The law of the order: `cmp` of reports and that of identities are the orders of the definitions,
/// and that of reports is total, and only equal reports tie.
pub fn order_is_total()
    ensures reports { (a b : PacketReport) → ⟦<Report as Ord>⟧.cmp a b ≡ report_cmp a b }
    ensures identities { (a b : Identity) → ⟦<Identity as Ord>⟧.cmp a b ≡ identity_cmp a b }
    ensures total { IsTotalOrder report_cmp }
    ensures exact { (a b : PacketReport) → report_cmp a b ≡ Equal → a ≡ b }
{}
