//! Code points and texts of meters.
use super::says;
use std::process::Abort;
use std::test::*;
use tca_meters::*;

#[test]
fn code_points_have_the_colours_of_their_precedences(rt: HostRuntime) {
    for other in [Colour::Green, Colour::Yellow, Colour::Red] {
        for dscp in 0..64u8 {
            let want = if [10, 18, 26, 34].contains(&dscp) {
                Colour::Green
            } else if [12, 20, 28, 36].contains(&dscp) {
                Colour::Yellow
            } else if [14, 22, 30, 38].contains(&dscp) {
                Colour::Red
            } else {
                other
            };
            assert!(rt; precolour(dscp, other) == want);
        }
    }
}

/// Whether a text names a meter, and this one.
fn names<M>(text: &str, meter: Result<M, MeterFault>) -> bool
where
    AnyMeter: From<M>,
{
    let meter = meter.ok().map(AnyMeter::from);
    meter.is_some() && meter_spec(text).ok() == meter
}

#[test]
fn texts_name_meters_of_one_rate(rt: HostRuntime) {
    let blind = SrTcm::new(1000, 2000, 3000, false);
    let aware = SrTcm::new(0, 0, 1, true);
    assert!(rt; names("rfc2697:1000:2000:3000:blind", blind));
    assert!(rt; names("rfc2697:0:0:0000000000001:aware", aware));
    spec_laws();
}

#[test]
fn texts_name_meters_of_two_rates(rt: HostRuntime) {
    let most = 1_000_000_000_000;
    let blind = TrTcm::new(4000, 2000, 1000, 3000, false);
    let aware = TrTcm::new(most, 1, most, 2, true);
    assert!(rt; names("rfc2698:4000:2000:1000:3000:blind", blind));
    assert!(rt; names("rfc2698:1000000000000:1:1000000000000:2:aware", aware));
}

#[test]
fn texts_name_meters_of_two_fits(rt: HostRuntime) {
    let exact = Rfc4115::new(1, 2, 3, 4, true, false);
    let below = Rfc4115::new(1, 2, 3, 4, false, true);
    assert!(rt; names("rfc4115:1:2:3:4:exact:blind", exact));
    assert!(rt; names("rfc4115:1:2:3:4:below:aware", below));
}

/// Texts that name no meter.
const OTHERS: [&'static str; 28] = [
    "",
    ":",
    "rfc2697",
    "rfc2697:1000:2000:1000",
    "rfc2697:1000:2000:1000:",
    "rfc2697:1000:2000:blind",
    "rfc2697:1000:2000:1000:2000:blind",
    "rfc2697:1000:2000:1000:blind:",
    ":rfc2697:1000:2000:1000:blind",
    "rfc2697:10000000000000:2000:1000:blind",
    "rfc2697:1000:00000000000001:1000:blind",
    "rfc2697::2000:1000:blind",
    "rfc2697:+1000:2000:1000:blind",
    "rfc2697:1000:-2000:1000:blind",
    "rfc2697:1000:2000: 1000:blind",
    "rfc2697:1000:2000:1e3:blind",
    "rfc2697:1000:2000:1000:Blind",
    "rfc2697:1000:2000:1000:AWARE",
    "rfc2697:1000:2000:1000:exact",
    "RFC2697:1000:2000:1000:blind",
    "rfc2696:1000:2000:1000:blind",
    "rfc2698:1000:2000:1000:blind",
    "rfc2698:1:2:3:4:exact:blind",
    "rfc4115:1:2:3:4:blind",
    "rfc4115:1:2:3:4:5:blind",
    "rfc4115:1:2:3:4:blind:exact",
    "rfc4115:1:2:3:4:Below:blind",
    "rfc4115:1:2:3:4:exact:blind\n",
];

#[test]
fn other_texts_are_refused(rt: HostRuntime) {
    for text in OTHERS {
        assert!(rt; meter_spec(text).err() == Some(SpecFault::Text));
    }
}

/// Texts with parameters of which there is no meter.
const NO_METERS: [(&'static str, MeterFault); 6] = [
    ("rfc2697:1000:0:0:blind", MeterFault::NoBurst),
    ("rfc2697:1000000000001:1:1:blind", MeterFault::RateRange),
    (
        "rfc2698:999:2000:1000:1000:blind",
        MeterFault::PeakBelowCommitted,
    ),
    ("rfc2698:999:2000:1000:0:aware", MeterFault::NoBurst),
    ("rfc4115:1:0:1:0:below:aware", MeterFault::NoBurst),
    (
        "rfc4115:1:1:9999999999999:1:exact:blind",
        MeterFault::RateRange,
    ),
];

#[test]
fn texts_of_no_meter_say_why(rt: HostRuntime) {
    for (text, fault) in NO_METERS {
        assert!(rt; meter_spec(text).err() == Some(SpecFault::Meter(fault)));
    }
}

/// The faults, each with its number and its text.
const SPEC_FAULTS: [(SpecFault, u8, &'static str); 2] = [
    (
        SpecFault::Text,
        1,
        "the text names no meter: expected rfc2697:CIR:CBS:EBS:MODE, rfc2698:PIR:PBS:CIR:CBS:MODE or rfc4115:CIR:CBS:EIR:EBS:FIT:MODE, with numbers of 1 to 13 digits, MODE blind or aware, and FIT exact or below",
    ),
    (
        SpecFault::Meter(MeterFault::PeakBelowCommitted),
        2,
        "no meter of these parameters: the peak rate is below the committed rate: expected it to be at least that",
    ),
];

#[test]
fn faults_of_texts_say_why(rt: HostRuntime) {
    for (fault, number, text) in SPEC_FAULTS {
        assert!(rt; fault.number() == number && says(rt.alloc(), fault, text));
    }
}
