//! The elements of IANA's registry that tell about a packet, and which of them are chosen.
/// octetDeltaCount: octets since the last report, which are those of the packet where a record reports one packet.
pub const OCTET_DELTA_COUNT: u16 = 1;

/// ipClassOfService: the type of service or the traffic class.
pub const IP_CLASS_OF_SERVICE: u16 = 5;

/// ingressInterface.
pub const INGRESS_INTERFACE: u16 = 10;

/// totalLengthIPv4.
pub const TOTAL_LENGTH_IPV4: u16 = 190;

/// ipDiffServCodePoint.
pub const IP_DIFF_SERV_CODE_POINT: u16 = 195;

/// ipTotalLength.
pub const IP_TOTAL_LENGTH: u16 = 224;

/// ipHeaderPacketSection: the first octets of the packet, from its IP header on (RFC 5477).
pub const IP_HEADER_PACKET_SECTION: u16 = 313;

/// observationTimeSeconds (RFC 5477).
pub const OBSERVATION_TIME_SECONDS: u16 = 322;

/// observationTimeMilliseconds (RFC 5477).
pub const OBSERVATION_TIME_MILLISECONDS: u16 = 323;

/// observationTimeMicroseconds (RFC 5477).
pub const OBSERVATION_TIME_MICROSECONDS: u16 = 324;

/// observationTimeNanoseconds (RFC 5477).
pub const OBSERVATION_TIME_NANOSECONDS: u16 = 325;

/// The elements that tell the time, the first choice first.
pub const TIMES: [u16; 4] = [
    OBSERVATION_TIME_MILLISECONDS,
    OBSERVATION_TIME_MICROSECONDS,
    OBSERVATION_TIME_NANOSECONDS,
    OBSERVATION_TIME_SECONDS,
];

/// Those that tell the octets of the packet.
pub const SIZES: [u16; 3] = [IP_TOTAL_LENGTH, TOTAL_LENGTH_IPV4, OCTET_DELTA_COUNT];

/// Those that tell the code point.
pub const CODE_POINTS: [u16; 2] = [IP_DIFF_SERV_CODE_POINT, IP_CLASS_OF_SERVICE];

/// The one that tells the interface.
pub const INTERFACES: [u16; 1] = [INGRESS_INTERFACE];

/// The one that has the packet's first octets.
pub const SECTIONS: [u16; 1] = [IP_HEADER_PACKET_SECTION];
