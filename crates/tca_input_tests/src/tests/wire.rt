//! Messages, and streams of them that come in pieces.
use super::samples::{fixed, part, variable};
use std::alloc::{AllocError, Global};
use std::test::Fail;
use tca_wire::{
    Framed, Framer, Header, Lent, SetSpan, WireFault, framing_is_unique, pieces_join, split_message,
};

fn with_end(alloc: Global, octets: &[u8], end: &[u8]) -> Result<Vec<u8>, AllocError> {
    let mut all = Vec::from_slice(alloc, octets)?;
    all.extend_from_slice(end)?;
    Ok(all)
}

// The octets with these two at a place.
fn with_pair(
    alloc: Global,
    octets: &[u8],
    at: usize,
    pair: [u8; 2],
) -> Result<Vec<u8>, AllocError> {
    let mut all = Vec::from_slice(alloc, part(octets, 0, at))?;
    all.extend_from_slice(&pair)?;
    all.extend_from_slice(part(octets, at.saturating_add(2), octets.len()))?;
    Ok(all)
}

fn is_refused(alloc: Global, octets: &[u8], fault: WireFault) -> bool {
    match split_message(alloc, octets) {
        Ok(_) => false,
        Err(found) => found == fault,
    }
}

// Whether the first message with these two octets at a place is refused so.
fn pair_is_refused(alloc: Global, at: usize, pair: [u8; 2], fault: WireFault) -> bool {
    let Ok(octets) = with_pair(alloc, fixed(), at, pair) else {
        return false;
    };
    is_refused(alloc, &octets, fault)
}

fn span(id: u16, at: u16, length: u16) -> SetSpan {
    SetSpan { id, at, length }
}

fn is_split(alloc: Global, octets: &[u8], header: Header, sets: &[SetSpan]) -> bool {
    match split_message(alloc, octets) {
        Ok(message) => {
            message.header == header && message.sets.as_slice() == sets && message.octets == octets
        }
        Err(_) => false,
    }
}

#[test]
fn messages_are_split(rt: HostRuntime) {
    let header = Header {
        length: 65,
        export_time: 1_700_000_000,
        sequence: 5,
        domain: 7,
    };
    let sets = [span(2, 16, 24), span(256, 40, 25)];
    assert!(rt; is_split(rt.alloc(), fixed(), header, &sets));
    let header = Header {
        length: 47,
        export_time: 1_700_000_000,
        sequence: 0,
        domain: 7,
    };
    let sets = [span(2, 16, 16), span(256, 32, 15)];
    assert!(rt; is_split(rt.alloc(), variable(), header, &sets));
}

// Whether this message of so many sets stands at the front.
fn stands_first(alloc: Global, octets: &[u8], message: &[u8], sets: usize) -> bool {
    match split_message(alloc, octets) {
        Ok(found) => found.octets == message && found.sets.len() == sets,
        Err(_) => false,
    }
}

// Whether the first message stands before the second.
fn a_message_is_left_alone(alloc: Global) -> bool {
    let Ok(both) = with_end(alloc, fixed(), variable()) else {
        return false;
    };
    stands_first(alloc, &both, fixed(), 2)
}

// Whether the header of the first message, with its own length, stands before the sets.
fn sets_are_left_alone(alloc: Global) -> bool {
    let Ok(bare) = with_pair(alloc, fixed(), 2, [0, 16]) else {
        return false;
    };
    stands_first(alloc, &bare, part(&bare, 0, 16), 0)
}

#[test]
fn what_follows_a_message_is_left_alone(rt: HostRuntime) {
    assert!(rt; a_message_is_left_alone(rt.alloc()));
    assert!(rt; sets_are_left_alone(rt.alloc()));
}

#[test]
fn cut_messages_are_short(rt: HostRuntime) {
    for whole in [fixed(), variable()] {
        for length in 0..whole.len() {
            assert!(rt; is_refused(rt.alloc(), part(whole, 0, length), WireFault::Short));
        }
    }
}

#[test]
fn headers_are_refused(rt: HostRuntime) {
    for (at, pair, fault) in [
        (0, [0, 9], WireFault::BadVersion(9)),
        (0, [1, 10], WireFault::BadVersion(266)),
        (2, [0, 15], WireFault::BadLength(15)),
        (2, [0, 66], WireFault::Short),
    ] {
        assert!(rt; pair_is_refused(rt.alloc(), at, pair, fault));
    }
    let nothing = b"\x00\x00\x00\x00\x00\x00\x00\x00\x00\x00\x00\x00\x00\x00\x00\x00";
    assert!(rt; is_refused(rt.alloc(), nothing, WireFault::BadVersion(0)));
}

#[test]
fn sets_are_refused(rt: HostRuntime) {
    for (at, pair, fault) in [
        (18, [0, 3], WireFault::SetLength { at: 16 }),
        (18, [0, 50], WireFault::SetPastEnd { at: 16 }),
        (42, [0, 0], WireFault::SetLength { at: 40 }),
        (42, [0, 26], WireFault::SetPastEnd { at: 40 }),
        (42, [0, 24], WireFault::Trailing { at: 64 }),
        (42, [0, 22], WireFault::Trailing { at: 62 }),
        (42, [0, 21], WireFault::SetLength { at: 61 }),
    ] {
        assert!(rt; pair_is_refused(rt.alloc(), at, pair, fault));
    }
}

// Whether these are the messages.
fn are(messages: &[Vec<u8>], wanted: &[&[u8]]) -> bool {
    if messages.len() != wanted.len() {
        return false;
    }
    for (message, octets) in messages.iter().zip(wanted) {
        if message.as_slice() != *octets {
            return false;
        }
    }
    true
}

// Whether a piece gives these messages and this fault.
fn gives(framer: &mut Framer, piece: &[u8], wanted: &[&[u8]], fault: Option<WireFault>) -> bool {
    match framer.feed(piece) {
        Ok(framed) => framed.fault == fault && are(framed.messages.as_slice(), wanted),
        Err(_) => false,
    }
}

// Feeds octet by octet, and tells whether each gives no message and this.
fn gives_alone(framer: &mut Framer, octets: &[u8], fault: Option<WireFault>) -> bool {
    for octet in octets.chunks(1) {
        if !gives(framer, octet, &[], fault) {
            return false;
        }
    }
    true
}

#[test]
fn a_stream_comes_octet_by_octet(rt: HostRuntime) {
    let (front, last) = fixed().split_at(64);
    let mut framer = Framer::new(rt.alloc());
    assert!(rt; framer.finish() == Ok(()));
    assert!(rt; gives_alone(&mut framer, front, None));
    assert!(rt; framer.finish() == Err(WireFault::Short));
    assert!(rt; gives(&mut framer, last, &[fixed()], None));
    assert!(rt; framer.finish() == Ok(()));
}

// So many messages, one after the other.
fn many(alloc: Global, count: u32) -> Result<Vec<u8>, AllocError> {
    let mut octets = Vec::new(alloc);
    for _ in 0..count {
        octets.extend_from_slice(fixed())?;
    }
    Ok(octets)
}

// How many messages end in a piece, where it has no fault.
fn ends_in(framer: &mut Framer, piece: &[u8]) -> Option<usize> {
    match framer.feed(piece) {
        Ok(framed) if framed.fault.is_none() => Some(framed.messages.len()),
        _ => None,
    }
}

#[test]
fn many_messages_come_in_a_piece(rt: HostRuntime) -> Result<(), Fail> {
    let octets = many(rt.alloc(), 2000)?;
    let mut framer = Framer::new(rt.alloc());
    assert!(rt; ends_in(&mut framer, &octets) == Some(2000));
    Ok(())
}

#[test]
fn a_faulty_stream_stays_so(rt: HostRuntime) {
    let fault = WireFault::BadVersion(9);
    let mut framer = Framer::new(rt.alloc());
    let header = b"\x00\x09\x00\x41\x65\x53\xf1\x00\x00\x00\x00\x05\x00\x00\x00";
    assert!(rt; gives_alone(&mut framer, header, None));
    assert!(rt; framer.finish() == Err(WireFault::Short));
    assert!(rt; gives_alone(&mut framer, b"\x07\x00\x02", Some(fault)));
    assert!(rt; framer.finish() == Err(fault));
    assert!(rt; gives(&mut framer, fixed(), &[], Some(fault)));
}

// A message, and behind it another whose length is 15.
fn with_bad_length(alloc: Global) -> Result<Vec<u8>, AllocError> {
    let bad = with_pair(alloc, variable(), 2, [0, 15])?;
    with_end(alloc, fixed(), &bad)
}

#[test]
fn a_fault_stands_behind_messages(rt: HostRuntime) -> Result<(), Fail> {
    let octets = with_bad_length(rt.alloc())?;
    let fault = WireFault::BadLength(15);
    let mut framer = Framer::new(rt.alloc());
    assert!(rt; gives(&mut framer, &octets, &[fixed()], Some(fault)));
    assert!(rt; framer.finish() == Err(fault));
    Ok(())
}

// Whether a stream of the two messages that is cut there gives so many of them early, and the others then.
fn gives_both(alloc: Global, octets: &[u8], cut: usize, early: usize) -> bool {
    let (front, behind) = octets.split_at(cut.min(octets.len()));
    let wanted: &[&[u8]] = &[fixed(), variable()];
    let (first, others) = wanted.split_at(early.min(2));
    let mut framer = Framer::new(alloc);
    gives(&mut framer, front, first, None)
        && gives(&mut framer, behind, others, None)
        && framer.finish() == Ok(())
}

#[test]
fn the_cut_does_not_matter(rt: HostRuntime) -> Result<(), Fail> {
    framing_is_unique();
    pieces_join();
    let both = with_end(rt.alloc(), fixed(), variable())?;
    for cut in 1..112 {
        let early = usize::from(cut >= 65);
        assert!(rt; gives_both(rt.alloc(), &both, cut, early), "{cut}");
    }
    Ok(())
}

// Whether the messages that are lent are these copies.
fn has_copies(lent: &Lent<'_>, copies: &[Vec<u8>]) -> bool {
    let mut copies = copies.iter();
    for message in lent.messages() {
        match copies.next() {
            Some(copy) if copy.as_slice() == message => {}
            _ => return false,
        }
    }
    copies.next().is_none()
}

// Whether a framer lends of a piece what another one copied.
fn lends_as(lender: &mut Framer, piece: &[u8], framed: &Framed) -> bool {
    match lender.lend(piece) {
        Ok(lent) => lent.fault == framed.fault && has_copies(&lent, framed.messages.as_slice()),
        Err(_) => false,
    }
}

// Whether a framer that lends says of a piece what one that copies says.
fn agree(lender: &mut Framer, copier: &mut Framer, piece: &[u8]) -> bool {
    match copier.feed(piece) {
        Ok(framed) => lends_as(lender, piece, &framed) && lender.finish() == copier.finish(),
        Err(_) => false,
    }
}

// The same of a stream in pieces of this length.
fn agree_throughout(alloc: Global, octets: &[u8], length: usize) -> bool {
    let mut lender = Framer::new(alloc);
    let mut copier = Framer::new(alloc);
    for piece in octets.chunks(length.max(1)) {
        if !agree(&mut lender, &mut copier, piece) {
            return false;
        }
    }
    true
}

#[test]
fn pieces_of_any_length_are_lent(rt: HostRuntime) -> Result<(), Fail> {
    let both = with_end(rt.alloc(), fixed(), variable())?;
    let faulty = with_pair(rt.alloc(), &both, 65, [0, 9])?;
    for length in [1, 7, 16, 65, 66, 112] {
        let agreed = agree_throughout(rt.alloc(), &both, length)
            && agree_throughout(rt.alloc(), &faulty, length);
        assert!(rt; agreed, "{length}");
    }
    Ok(())
}

// Whether these messages are lent.
fn has_messages(lent: &Lent<'_>, wanted: &[&[u8]]) -> bool {
    let mut wanted = wanted.iter();
    for message in lent.messages() {
        match wanted.next() {
            Some(octets) if *octets == message => {}
            _ => return false,
        }
    }
    wanted.next().is_none()
}

fn lends(framer: &mut Framer, piece: &[u8], wanted: &[&[u8]]) -> bool {
    match framer.lend(piece) {
        Ok(lent) => has_messages(&lent, wanted),
        Err(_) => false,
    }
}

// Whether of a stream of the two messages that is cut there so many are lent early, and the others then.
fn lends_both(alloc: Global, octets: &[u8], cut: usize, early: usize) -> bool {
    let (front, behind) = octets.split_at(cut.min(octets.len()));
    let wanted: &[&[u8]] = &[fixed(), variable()];
    let (first, others) = wanted.split_at(early.min(2));
    let mut framer = Framer::new(alloc);
    lends(&mut framer, front, first)
        && lends(&mut framer, behind, others)
        && framer.finish() == Ok(())
}

#[test]
fn messages_are_lent_at_each_cut(rt: HostRuntime) -> Result<(), Fail> {
    let both = with_end(rt.alloc(), fixed(), variable())?;
    for cut in 0..113 {
        let early = usize::from(cut >= 65) + usize::from(cut == 112);
        assert!(rt; lends_both(rt.alloc(), &both, cut, early), "{cut}");
    }
    Ok(())
}

// Whether both say the same of a stream that is cut there.
fn agree_at(alloc: Global, octets: &[u8], cut: usize) -> bool {
    let (front, behind) = octets.split_at(cut.min(octets.len()));
    let mut lender = Framer::new(alloc);
    let mut copier = Framer::new(alloc);
    agree(&mut lender, &mut copier, front) && agree(&mut lender, &mut copier, behind)
}

#[test]
fn changed_streams_are_lent_in_two_pieces(rt: HostRuntime) -> Result<(), Fail> {
    let both = with_end(rt.alloc(), fixed(), variable())?;
    for at in [0, 1, 2, 3, 65, 66, 67, 68] {
        let changed = with_pair(rt.alloc(), &both, at, [0, 17])?;
        for cut in 0..113 {
            assert!(rt; agree_at(rt.alloc(), &changed, cut), "{at} {cut}");
        }
    }
    Ok(())
}

// The faults, each with its number and its text.
const FAULTS: [(WireFault, u8, &'static str); 7] = [
    (
        WireFault::Short,
        1,
        "the octets end before the message does",
    ),
    (WireFault::BadVersion(9), 2, "version 9 instead of 10"),
    (
        WireFault::BadLength(15),
        3,
        "a message length of 15, which is less than the 16 octets of a header",
    ),
    (
        WireFault::SetLength { at: 16 },
        4,
        "the set at offset 16 has a length below 4",
    ),
    (
        WireFault::SetPastEnd { at: 40 },
        5,
        "the set at offset 40 is longer than what is left of the message",
    ),
    (
        WireFault::Trailing { at: 62 },
        6,
        "at offset 62 fewer than four octets are left, which hold no set",
    ),
    (WireFault::Memory, 7, "out of memory"),
];

fn says(alloc: Global, fault: WireFault, text: &str) -> bool {
    match format!(in alloc; "{fault}") {
        Ok(line) => line.as_str() == text,
        Err(_) => false,
    }
}

#[test]
fn faults_have_texts_and_numbers(rt: HostRuntime) {
    for (fault, number, text) in FAULTS {
        assert!(rt; fault.number() == number && says(rt.alloc(), fault, text));
    }
}
