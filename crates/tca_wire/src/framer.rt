//! The messages of a stream that comes in pieces.
ghost use Rattle.std.specs.Prelude.{◌≡◌, ◌<◌, ◌≤◌, ◌+◌, ◌++◌, ◌∷◌, ◌⊎◌, List, ℕ, [], IfOk, IfErr, IfSome, IfNone, OnErr, IsOk, length, take, drop, slice_index};
ghost use Rattle.tca_wire.specs.Frames.{Framing, Holds, Failed, IsFrame, AreFrames, IsPart, IsFaulty, EndsAs, HoldsPart, IsStream, Feeds, frames_of, frames_of_both, framing, fault_of, ending, octets_of};
ghost use Rattle.tca_wire.specs.Messages.{judged_length};

use crate::fault::WireFault;
use crate::split::{read_length, said_length};
use std::alloc::Global;
use std::marker::Model;
use std::mem;

/// What one piece of a stream brought.
#[derive(Drop)]
pub struct Framed {
    /// The messages that ended in the piece, each with its header.
    pub messages: Vec<Vec<u8>>,
    /// The fault of the header behind them, `BadVersion` or `BadLength`, where it has one.
    pub fault: Option<WireFault>,
}

/// What one piece of a stream brought, lent where it lies.
#[derive(Drop)]
pub struct Lent<'a> {
    /// The message that began before the piece and ended in it; without octets where there is none.
    pub begun: Vec<u8>,
    /// The messages that lie whole in the piece, one after the other.
    pub whole: &'a [u8],
    /// The fault of the header behind them, `BadVersion` or `BadLength`, where it has one.
    pub fault: Option<WireFault>,
    pub ghost begun_frames: { AreFrames begun.items },
    pub ghost whole_frames: { AreFrames whole.now },
}

/// Goes over messages that a framer lent.
#[derive(Drop)]
pub struct Messages<'a> {
    begun: &'a [u8],
    whole: &'a [u8],
}

// Contracts see the messages that are left.
impl<'a> Model for Messages<'a> {
    ghost use Rattle.std.specs.Prelude.{List, ℕ};
    ghost use Rattle.tca_wire.specs.Frames.{AreFrames, frames_of_both};

    ghost Value = { List (List ℕ) };

    ghost view = { λ m. frames_of_both m.begun.now m.whole.now };

    ghost invariant = { λ m. AreFrames m.begun.now × AreFrames m.whole.now };
}

impl<'a> Lent<'a> {
    // No message, and the fault where there is one.
    fn nothing(alloc: Global, fault: Option<WireFault>) -> Lent<'a>
        ensures none { frames_of_both result.begun.items result.whole.now ≡ [] }
        ensures fault { result.fault ≡ fault }
    {
        Lent {
            begun: Vec::new(alloc),
            whole: b"",
            fault,
        }
    }

    /// The messages that ended in the piece, in their order.
    pub fn messages(&self) -> Messages<'_>
        ensures { result ≡ frames_of_both self.now.begun.items self.now.whole.now }
    {
        Messages {
            begun: self.begun.as_slice(),
            whole: self.whole,
        }
    }
}

// The first message of octets that are messages, and what is behind it.
fn first_frame(octets: &[u8]) -> Option<(&[u8], &[u8])>
    requires { AreFrames octets.now }
    ensures none { IfNone result ((frames_of octets.now).0 ≡ []) }
    ensures some { IfSome result (λ found. (frames_of octets.now).0 ≡ found.0.now ∷ (frames_of found.1.now).0) }
    ensures behind { IfSome result (λ found. AreFrames found.1.now) }
{
    if octets.is_empty() {
        return None;
    }
    Some(octets.split_at(said_length(octets) as usize))
}

impl<'a> Iterator for Messages<'a> {
    ghost use Rattle.std.specs.Iterator.{YieldsFirstRef, item_count};

    type Item = &'a [u8];

    ghost next_gives = { YieldsFirstRef (λ messages. messages) };

    ghost remaining = { item_count (λ messages. messages) };

    fn next(&mut self) -> Option<&'a [u8]> {
        if let Some((message, behind)) = first_frame(self.begun) {
            self.begun = behind;
            return Some(message);
        }
        let (message, behind) = first_frame(self.whole)?;
        self.whole = behind;
        Some(message)
    }
}

/// Cuts a stream of messages, one after the other, as a file of RFC 5655 has them, into its messages. Their sets are
/// not looked at.
#[derive(Drop)]
pub struct Framer {
    held: Vec<u8>,
    fault: Option<WireFault>,
}

// Contracts see the octets held, which are less than a message, or the fault, behind which none are held.
impl Model for Framer {
    ghost use Rattle.std.specs.Prelude.{◌≡◌, [], IfNone, IfSome};
    ghost use Rattle.tca_wire.specs.Frames.{Framing, IsPart, framing};

    ghost Value = { Framing };

    ghost view = { λ f. framing f.held.items f.fault };

    ghost invariant = { λ f. IfNone f.fault (IsPart f.held.items) × IfSome f.fault (λ _. f.held.items ≡ []) };
}

// The length of the message at the front, None where it isn't there whole.
fn frame_length(octets: &[u8]) -> Result<Option<usize>, WireFault>
    ensures within { IfOk result (λ found. IfSome found (λ n. n ≤ length octets.now)) }
    ensures some { IfOk result (λ found. IfSome found (λ n. 16 ≤ n)) }
    ensures frame { IfOk result (λ found. IfSome found (λ n. IsFrame (take n octets.now))) }
    ensures part { IfOk result (λ found. IfNone found (IsPart octets.now)) }
    ensures fault { IfErr result (λ fault. IsFaulty octets.now fault) }
{
    if octets.len() < 16 {
        return Ok(None);
    }
    let length = read_length(octets)? as usize;
    if octets.len() < length {
        return Ok(None);
    }
    Ok(Some(length))
}

// The messages at the front, what is behind them, and the fault that stands there.
fn cut_frames(octets: &[u8]) -> (&[u8], &[u8], Option<WireFault>)
    ensures parts { octets.now ≡ result.0.now ++ result.1.now }
    ensures frames { AreFrames result.0.now }
    ensures ends { EndsAs result.1.now (framing result.1.now result.2) }
{
    let mut rest = octets;
    let fault = loop {
        match frame_length(rest) {
            Ok(Some(length)) => {
                let (_, behind) = rest.split_at(length);
                rest = behind;
            }
            Ok(None) => break None,
            Err(fault) => break Some(fault),
        }
    };
    let (whole, part) = octets.split_at(octets.len() - rest.len());
    (whole, part, fault)
}

// An octet of both, one after the other.
fn octet_at(held: &[u8], piece: &[u8], index: usize) -> u8
    requires { index < length held.now + length piece.now }
    ensures { result ≡ slice_index (held.now ++ piece.now) index }
{
    match held.get(index) {
        Some(octet) => *octet,
        None => piece[index - held.len()],
    }
}

// The length that the header at the front of both says, or what is wrong with it.
fn joined_length(held: &[u8], piece: &[u8]) -> Result<u16, WireFault>
    requires { 16 ≤ length held.now + length piece.now }
    ensures exact { result ≡ judged_length (held.now ++ piece.now) }
{
    let front = [
        octet_at(held, piece, 0),
        octet_at(held, piece, 1),
        octet_at(held, piece, 2),
        octet_at(held, piece, 3),
    ];
    read_length(&front)
}

// How many octets of the piece end the message at the front of both, None where it goes on behind the piece.
fn end_of_frame(held: &[u8], piece: &[u8]) -> Result<Option<usize>, WireFault>
    requires { IsPart held.now }
    ensures within { IfOk result (λ found. IfSome found (λ n. n ≤ length piece.now)) }
    ensures frame { IfOk result (λ found. IfSome found (λ n. IsFrame (held.now ++ take n piece.now))) }
    ensures part { IfOk result (λ found. IfNone found (IsPart (held.now ++ piece.now))) }
    ensures fault { IfErr result (λ fault. IsFaulty (held.now ++ piece.now) fault) }
{
    if held.len() < 16 && piece.len() < 16 - held.len() {
        return Ok(None);
    }
    let left = joined_length(held, piece)? as usize - held.len();
    if piece.len() < left {
        return Ok(None);
    }
    Ok(Some(left))
}

// The messages at the front, the fault behind them, and how many octets the messages take.
fn frames_in(alloc: Global, octets: &[u8]) -> Result<(Framed, usize), WireFault>
    ensures stream { IfOk result (λ found. IsStream octets.now (octets_of found.0.messages.items)
        (framing (drop found.1 octets.now) found.0.fault)) }
    ensures within { IfOk result (λ found. found.1 ≤ length octets.now) }
    ensures memory { IfErr result (λ e. e ≡ WireFault.Memory) }
    ensures needed { OnErr result (¬ IsPart octets.now) }
{
    let mut messages = Vec::new(alloc);
    let mut rest = octets;
    let fault = loop {
        match frame_length(rest) {
            Ok(Some(length)) => {
                let (message, behind) = rest.split_at(length);
                messages.push(Vec::from_slice(alloc, message)?)?;
                rest = behind;
            }
            Ok(None) => break None,
            Err(fault) => break Some(fault),
        }
    };
    let taken = octets.len() - rest.len();
    Ok((Framed { messages, fault }, taken))
}

impl Framer {
    /// A framer at the front of a stream. It takes no memory.
    pub fn new(alloc: Global) -> Framer
        ensures { result ≡ Holds [] }
    {
        Framer {
            held: Vec::new(alloc),
            fault: None,
        }
    }

    /// Takes the next piece of the stream, of any length, and gives the messages that end in it.
    ///
    /// A header is judged once its 16 octets are there: a version other than 10 is `BadVersion`, else a length below 16
    /// `BadLength`. With that fault the framer has failed, and each further piece gives no message and the same fault.
    ///
    /// The one refusal is `Memory`. The piece isn't taken then, and the framer is as before.
    pub fn feed(&mut self, octets: &[u8]) -> Result<Framed, WireFault>
        // The messages of what was held and the piece, and what stands behind them.
        ensures stream { IfOk result (λ framed. Feeds self.old octets.now (octets_of framed.messages.items) self.new) }
        ensures fault { IfOk result (λ framed. framed.fault ≡ fault_of self.new) }

        // A refusal changes nothing.
        ensures memory { IfErr result (λ e. e ≡ WireFault.Memory) }
        ensures unchanged { OnErr result (self.new ≡ self.old) }

        // It comes only where a message or part of one is to be kept, and never for an empty piece.
        ensures needed { OnErr result ((frames : List (List ℕ)) (after : Framing) → Feeds self.old octets.now frames after
            → (0 < length frames) ⊎ HoldsPart after) }
        ensures some { OnErr result (0 < length octets.now) }
        ensures failed { (fault : WireFault) → self.old ≡ Failed fault → IsOk result }
    {
        let alloc = *self.held.allocator();
        if self.fault.is_some() {
            return Ok(Framed {
                messages: Vec::new(alloc),
                fault: self.fault,
            });
        }
        if let Err(fault) = end_of_frame(self.held.as_slice(), octets) {
            self.fail(fault);
            return Ok(Framed {
                messages: Vec::new(alloc),
                fault: Some(fault),
            });
        }
        let before = self.held.len();
        self.held.extend_from_slice(octets)?;
        match frames_in(alloc, self.held.as_slice()) {
            Ok((framed, taken)) => {
                self.fault = framed.fault;
                if framed.fault.is_some() {
                    self.held = Vec::new(alloc);
                } else {
                    self.held.drain(..taken);
                }
                Ok(framed)
            }
            Err(fault) => {
                self.held.truncate(before);
                Err(fault)
            }
        }
    }

    /// Takes the next piece as `feed` does, and lends the messages: of the one that began before the piece the end is
    /// copied, and those that lie whole in the piece stay there. Part of a message at the piece's end is copied.
    ///
    /// The one refusal is `Memory`. The piece isn't taken then, and the framer is as before.
    pub fn lend<'a>(&mut self, piece: &'a [u8]) -> Result<Lent<'a>, WireFault>
        // What `feed` says of its messages.
        ensures stream { IfOk result (λ lent. Feeds self.old piece.now (frames_of_both lent.begun.items lent.whole.now) self.new) }
        ensures fault { IfOk result (λ lent. lent.fault ≡ fault_of self.new) }

        // A refusal changes nothing.
        ensures memory { IfErr result (λ e. e ≡ WireFault.Memory) }
        ensures unchanged { OnErr result (self.new ≡ self.old) }

        // It comes only where there is something to copy, and never for an empty piece.
        ensures needed { OnErr result ((frames : List (List ℕ)) (after : Framing) → Feeds self.old piece.now frames after
            → (HoldsPart self.old × (0 < length frames)) ⊎ HoldsPart after) }
        ensures some { OnErr result (0 < length piece.now) }
    {
        let alloc = *self.held.allocator();
        if let Some(fault) = self.fault {
            return Ok(Lent::nothing(alloc, Some(fault)));
        }
        if self.held.is_empty() {
            return self.lend_from(piece, 0);
        }
        match end_of_frame(self.held.as_slice(), piece) {
            Ok(Some(ended)) => self.lend_from(piece, ended),
            Ok(None) => {
                self.held.extend_from_slice(piece)?;
                Ok(Lent::nothing(alloc, None))
            }
            Err(fault) => {
                self.fail(fault);
                Ok(Lent::nothing(alloc, Some(fault)))
            }
        }
    }

    // Behind a fault nothing is held.
    fn fail(&mut self, fault: WireFault)
        ensures { self.new ≡ Failed fault }
    {
        self.held = Vec::new(*self.held.allocator());
        self.fault = Some(fault);
    }

    // Lends the message that so many octets of the piece end, where one was begun, and those behind it.
    fn lend_from<'a>(&mut self, piece: &'a [u8], ended: usize) -> Result<Lent<'a>, WireFault>
        requires within { ended ≤ length piece.now }
        requires frames { (held : List ℕ) × (self.old ≡ Holds held) × AreFrames (held ++ take ended piece.now) }
        requires begun { 0 < ended → HoldsPart self.old }
        ensures stream { IfOk result (λ lent. Feeds self.old piece.now (frames_of_both lent.begun.items lent.whole.now) self.new) }
        ensures fault { IfOk result (λ lent. lent.fault ≡ fault_of self.new) }
        ensures memory { IfErr result (λ e. e ≡ WireFault.Memory) }
        ensures unchanged { OnErr result (self.new ≡ self.old) }
        ensures needed { OnErr result ((frames : List (List ℕ)) (after : Framing) → Feeds self.old piece.now frames after
            → (HoldsPart self.old × (0 < length frames)) ⊎ HoldsPart after) }
        ensures some { OnErr result (0 < length piece.now) }
    {
        let (end, behind) = piece.split_at(ended);
        let (whole, part, fault) = cut_frames(behind);
        let mut kept = Vec::new(*self.held.allocator());
        if fault.is_none() {
            kept.extend_from_slice(part)?;
        }
        self.held.extend_from_slice(end)?;
        let begun = mem::replace(&mut self.held, kept);
        self.fault = fault;
        Ok(Lent {
            begun,
            whole,
            fault,
        })
    }

    /// Tells whether the stream may end here: `Short` where part of a message is left, and the fault of a framer that
    /// has failed.
    pub fn finish(&self) -> Result<(), WireFault>
        ensures { result ≡ ending self.now }
    {
        match self.fault {
            Some(fault) => Err(fault),
            None if self.held.is_empty() => Ok(()),
            None => Err(WireFault::Short),
        }
    }
}

/// The law of frames: any octets are a stream of messages and a rest, and of no others.
pub fn framing_is_unique()
    ensures exists { (octets : List ℕ) → IsStream octets (frames_of octets).0 (frames_of octets).1 }
    ensures unique { (octets : List ℕ) (a b : List (List ℕ)) (x y : Framing) → IsStream octets a x → IsStream octets b y → (a ≡ b) × (x ≡ y) }
{}

/// The law of pieces: a stream that comes in two pieces gives what it gives whole, also where its front has a fault.
pub fn pieces_join()
    ensures { (a b : List ℕ) (fs gs : List (List ℕ)) (between after : Framing) → IsStream a fs between → Feeds between b gs after
        → IsStream (a ++ b) (fs ++ gs) after }
{}
