//! Reading one message.
ghost use Rattle.std.specs.Prelude.{List, ℕ, Ok, Err, IfOk, IfErr, IsOk, IsErrOf, ◌≡◌, ◌≢◌, ◌<◌, ◌≤◌, ◌+◌, ◌^◌, length, take};
ghost use Rattle.tca_join.specs.Results.{Gives};
ghost use Rattle.tca_wire.specs.Walks.{walk};
ghost use Rattle.tca_wire.specs.Messages.{length_at, judged, judged_length, judged_header, set_front, sets_of, message_of, HasSet, IsMessage};
ghost use Rattle.tca_wire.specs.FirstFaults.{IsFirstFault};
ghost use Rattle.tca_wire.specs.declared.message.Header.{Header};
ghost use Rattle.tca_wire.specs.declared.message.SetSpan.{SetSpan};

use crate::fault::WireFault;
use crate::message::{Header, Message, SetSpan};
use byteorder::{BigEndian, ByteOrder};
use std::alloc::Global;

// The set at the front of the octets, which begin at this offset.
fn set_at(at: u16, octets: &[u8]) -> Result<SetSpan, WireFault>
    ensures exact { result ≡ judged at octets.now }
    ensures no_memory { IfErr result (λ e. e ≢ WireFault.Memory) }
{
    if octets.len() < 4 {
        return Err(WireFault::Trailing { at });
    }
    let length = BigEndian::read_u16(&octets[2..]);
    if length < 4 {
        return Err(WireFault::SetLength { at });
    }
    if octets.len() < length as usize {
        return Err(WireFault::SetPastEnd { at });
    }
    let id = BigEndian::read_u16(octets);
    Ok(SetSpan { id, at, length })
}

// The first fault among the sets that fill these octets, or want of memory where they have none. It takes no memory,
// and is asked only where memory lacks.
#[cold]
fn refused(at: u16, octets: &[u8]) -> WireFault
    requires { at + length octets.now < 2 ^ 16 }
    ensures fault { result ≢ WireFault.Memory → (before : List SetSpan) → walk set_front before at octets.now ≡ Err result }
    ensures memory { result ≡ WireFault.Memory → (before : List SetSpan) → IsOk (walk set_front before at octets.now) }
{
    let mut at = at;
    let mut rest = octets;
    while !rest.is_empty() {
        let set = match set_at(at, rest) {
            Ok(set) => set,
            Err(fault) => return fault,
        };
        at += set.length;
        let (_, behind) = rest.split_at(set.length as usize);
        rest = behind;
    }
    WireFault::Memory
}

// The sets that fill the octets, which begin behind a header. Memory is wanted only where nothing is wrong with them.
fn sets_in(alloc: Global, octets: &[u8]) -> Result<Vec<SetSpan>, WireFault>
    requires { length octets.now + 16 < 2 ^ 16 }
    ensures exact { Gives WireFault.Memory (λ v. v.items) result (sets_of octets.now) }
    ensures memory { IsErrOf result WireFault.Memory → IsOk (judged 16 octets.now) }
    ensures last { IsErrOf result WireFault.Memory → IsOk (sets_of octets.now) }
{
    let mut sets = Vec::new(alloc);
    let mut at = 16;
    let mut rest = octets;
    while !rest.is_empty() {
        let set = set_at(at, rest)?;
        at += set.length;
        let (_, behind) = rest.split_at(set.length as usize);
        rest = behind;
        let Ok(()) = sets.push(set) else {
            return Err(refused(at, rest));
        };
    }
    Ok(sets)
}

// The length that a header says.
pub(crate) fn said_length(octets: &[u8]) -> u16
    requires { 4 ≤ length octets.now }
    ensures { result ≡ length_at octets.now }
{
    BigEndian::read_u16(&octets[2..])
}

// The length that a header says, or what is wrong with the header: its first four octets tell.
pub(crate) fn read_length(octets: &[u8]) -> Result<u16, WireFault>
    requires { 4 ≤ length octets.now }
    ensures exact { result ≡ judged_length octets.now }
    ensures no_memory { IfErr result (λ e. e ≢ WireFault.Memory) }
{
    let version = BigEndian::read_u16(octets);
    if version != 10 {
        return Err(WireFault::BadVersion(version));
    }
    let length = said_length(octets);
    if length < 16 {
        return Err(WireFault::BadLength(length));
    }
    Ok(length)
}

// The header of the first 16 octets, or what is wrong with it.
fn read_header(octets: &[u8]) -> Result<Header, WireFault>
    requires { 16 ≤ length octets.now }
    ensures exact { result ≡ judged_header octets.now }
    ensures no_memory { IfErr result (λ e. e ≢ WireFault.Memory) }
{
    let length = read_length(octets)?;
    Ok(Header {
        length,
        export_time: BigEndian::read_u32(&octets[4..]),
        sequence: BigEndian::read_u32(&octets[8..]),
        domain: BigEndian::read_u32(&octets[12..]),
    })
}

// The message at the front. Memory is wanted only where nothing is wrong with it.
#[tactic(auto, unfolding(crate::specs::Messages::message_of))]
fn split(alloc: Global, octets: &[u8]) -> Result<Message<'_>, WireFault>
    ensures exact { Gives WireFault.Memory (λ m. (m.header, m.sets.items)) result (message_of octets.now) }
    ensures octets { IfOk result (λ m. m.octets.now ≡ take m.header.length octets.now) }
    ensures memory { IsErrOf result WireFault.Memory → HasSet octets.now }
    ensures last { IsErrOf result WireFault.Memory → IsOk (message_of octets.now) }
{
    if octets.len() < 16 {
        return Err(WireFault::Short);
    }
    let header = read_header(octets)?;
    let length = header.length as usize;
    if octets.len() < length {
        return Err(WireFault::Short);
    }
    let octets = &octets[..length];
    let (_, body) = octets.split_at(16);
    let sets = sets_in(alloc, body)?;
    Ok(Message {
        header,
        sets,
        octets,
    })
}

/// Reads one message from the front (RFC 7011, section 3). What follows its length is left alone.
///
/// The first fault from the left is answered, in this order: fewer than 16 octets `Short`; a version other than 10
/// `BadVersion`; a length below 16 `BadLength`; fewer octets than the length `Short`; then set by set 1 to 3 octets
/// left `Trailing`, a length below 4 `SetLength`, a set past the message's end `SetPastEnd`; and last no memory for the
/// list of sets `Memory`.
pub fn split_message(alloc: Global, octets: &[u8]) -> Result<Message<'_>, WireFault>
    // What is read stands there.
    ensures found { IfOk result (λ m. IsMessage octets.now m.header m.sets.items) }
    // What stands there is read, unless memory runs out.
    ensures only { (header : Header) (sets : List SetSpan) → IsMessage octets.now header sets →
        let found : Header × List SetSpan = (header, sets) in
        Gives WireFault.Memory (λ m. (m.header, m.sets.items)) result (Ok found) }
    // Which fault it is.
    ensures exact { Gives WireFault.Memory (λ m. (m.header, m.sets.items)) result (message_of octets.now) }
    ensures first { IfErr result (λ f. f ≢ WireFault.Memory → IsFirstFault octets.now f) }
    // Octets with a fault are refused for it, also where memory lacks.
    ensures refused { (f : WireFault) → IsFirstFault octets.now f → result ≡ Err f }
    ensures octets { IfOk result (λ m. m.octets.now ≡ take m.header.length octets.now) }
    // Memory is wanted for the sets alone, where there is one.
    ensures memory { IsErrOf result WireFault.Memory → HasSet octets.now }
{
    split(alloc, octets)
}

/// The law of messages: what is found from the left is what the grammar of RFC 7011, section 3, has, and where it has none,
/// the one fault before which all is right.
pub fn message_laws()
    ensures found { (octets : List ℕ) (h : Header) (ss : List SetSpan) → message_of octets ≡ Ok (h, ss) → IsMessage octets h ss }
    ensures only { (octets : List ℕ) (h : Header) (ss : List SetSpan) → IsMessage octets h ss → message_of octets ≡ Ok (h, ss) }
    ensures fault { (octets : List ℕ) (f : WireFault) → message_of octets ≡ Err f → IsFirstFault octets f }
    ensures no_other { (octets : List ℕ) (f : WireFault) → IsFirstFault octets f → message_of octets ≡ Err f }
{}
