//! The second reading of a capture: each message goes to the file of its domain, by a buffer of its own.
ghost use Rattle.std.specs.Prelude.{◌≡◌, ◌≢◌, ◌⊎◌, ◌≤◌, ◌<◌, ◌++◌, ◌∷◌, [], ℕ, List, Some, Ok, Err, ◌==◌, false, true, length, take, drop, IfOk, IfErr, IfSome, IfNone, OnOk, OnErr, IsErrOf, ◌+◌, ◌*◌, ◌-◌};
ghost use Rattle.std.specs.Vec.{vec_len, vec_capacity};
ghost use Rattle.tca_wire.specs.Frames.{Holds, IsFrame, IsPart, IsFaulty, frames_of, ending};
ghost use Rattle.tca_wire.specs.declared.fault.WireFault.{WireFault};
ghost use Rattle.tca_split.specs.Surveys.{is_among};
ghost use Rattle.tca_split.specs.Failures.{CountsWrite, CountsRead, most_turns};
ghost use Rattle.tca_split.specs.inside.Buffering.{buffered, empty_for, Leaves, Starts, Takes, Begins, SameDomains, AreRefused, TakesPiece, StopsInPiece, IsSecondRefused};

use crate::fault::SplitFault;
use crate::folder::{Folder, append_all};
use crate::survey::domain_of;
use byteorder::{BigEndian, ByteOrder};
use std::alloc::{AllocError, Global};
use std::collections::BTreeMap;
use tca_report::{Read, ReadFault};
use tca_wire::WireFault;

// Octets of all buffers together.
const ALL_ROOM: usize = 33_554_432;

// The most octets of one buffer.
const MOST_ROOM: usize = 1_048_576;

/// A buffer for each domain of a capture, in a tree: whoever sends messages chooses the domains, and could choose some that share a hash.
#[derive(Drop)]
pub(crate) struct Buffers {
    pub(crate) buffers: BTreeMap<u32, Vec<u8>>,
}

// How many octets each of so many buffers has.
fn room_of(domains: usize) -> usize
    ensures each { result ≤ 1048576 }
    ensures all { result * domains ≤ 33554432 }
{
    if domains == 0 {
        return MOST_ROOM;
    }
    (ALL_ROOM / domains).min(MOST_ROOM)
}

// Writes what a buffer holds to the file of its domain, where so many octets more have no room behind it.
fn make_room<F: Folder>(
    domain: u32,
    buffer: &mut Vec<u8>,
    more: usize,
    folder: &mut F,
) -> Result<(), SplitFault>
    ensures ok { OnOk result (Leaves domain buffer.old.items buffer.new.items (F.files folder.old) (F.files folder.new)) }
    ensures room { OnOk result ((vec_len buffer.new + more ≤ vec_capacity buffer.new) ⊎ (buffer.new.items ≡ [])) }
    ensures err { OnErr result (Starts domain buffer.old.items (F.files folder.old) (F.files folder.new)) }
    ensures fault { IfErr result (λ e. e ≡ SplitFault.Write) }
    ensures count { CountsWrite result (F.failures folder.old) (F.failures folder.new) }
{
    if more <= buffer.capacity() - buffer.len() {
        return Ok(());
    }
    append_all(domain, buffer.as_slice(), folder)?;
    buffer.clear();
    Ok(())
}

// Keeps a message in the buffer of its domain, behind what is there, or writes it where it is too long.
fn keep<F: Folder>(
    domain: u32,
    buffer: &mut Vec<u8>,
    message: &[u8],
    folder: &mut F,
) -> Result<(), SplitFault>
    ensures ok { OnOk result (Leaves domain (buffer.old.items ++ message.now) buffer.new.items (F.files folder.old) (F.files folder.new)) }
    ensures err { OnErr result (Starts domain (buffer.old.items ++ message.now) (F.files folder.old) (F.files folder.new)) }
    ensures fault { IfErr result (λ e. e ≡ SplitFault.Write) }
    ensures count { CountsWrite result (F.failures folder.old) (F.failures folder.new) }
{
    make_room(domain, buffer, message.len(), folder)?;
    if message.len() > buffer.capacity() - buffer.len() {
        return append_all(domain, message, folder);
    }
    let Ok(()) = buffer.extend_from_slice(message) else {
        unreachable!();
    };
    Ok(())
}

// The length of the message at the front, None where it isn't there whole; or what is wrong with its header.
fn frame_length(octets: &[u8]) -> Result<Option<usize>, WireFault>
    ensures within { IfOk result (λ found. IfSome found (λ n. n ≤ length octets.now)) }
    ensures some { IfOk result (λ found. IfSome found (λ n. 16 ≤ n)) }
    ensures frame { IfOk result (λ found. IfSome found (λ n. IsFrame (take n octets.now))) }
    ensures part { IfOk result (λ found. IfNone found (IsPart octets.now)) }
    ensures few { IfOk result (λ found. IfNone found (length octets.now < 65536)) }
    ensures fault { IfErr result (λ fault. IsFaulty octets.now fault) }
{
    if octets.len() < 16 {
        return Ok(None);
    }
    let version = BigEndian::read_u16(octets);
    if version != 10 {
        return Err(WireFault::BadVersion(version));
    }
    let length = BigEndian::read_u16(&octets[2..]);
    if length < 16 {
        return Err(WireFault::BadLength(length));
    }
    if octets.len() < length as usize {
        return Ok(None);
    }
    Ok(Some(length as usize))
}

// Leaves so many octets of the end, which go to the front.
fn leave_end(held: &mut Vec<u8>, left: usize)
    requires { left ≤ vec_len held.old }
    ensures items { held.new.items ≡ drop (vec_len held.old - left) held.old.items }
    ensures len { vec_len held.new ≡ left }
    ensures capacity { vec_capacity held.new ≡ vec_capacity held.old }
{
    let taken = held.len() - left;
    held.copy_within(taken.., 0);
    held.truncate(left);
}

// Whether the capture may end behind these octets, which aren't a message yet.
fn finish(held: &[u8]) -> Result<(), SplitFault>
    ensures right { OnOk result (ending (Holds held.now) ≡ Ok tt) }
    ensures fault { IfErr result (λ e. (fault : WireFault) × (ending (Holds held.now) ≡ Err fault) × (e ≡ SplitFault.Wire fault)) }
    ensures memory { IfErr result (λ e. e ≢ SplitFault.Memory) }
{
    if held.is_empty() {
        return Ok(());
    }
    Err(SplitFault::Wire(WireFault::Short))
}

impl Buffers {
    // An empty buffer for each of the domains, with its room.
    pub(crate) fn new(alloc: Global, domains: &[u32]) -> Result<Buffers, AllocError>
        ensures { IfOk result (λ b. (d : ℕ) → buffered b d ≡ empty_for domains.now d) }
    {
        let room = room_of(domains.len());
        let mut buffers = BTreeMap::new(alloc);
        for domain in domains {
            buffers.insert(*domain, Vec::with_capacity(alloc, room)?)?;
        }
        Ok(Buffers { buffers })
    }

    // Takes a message.
    fn take_message<F: Folder>(&mut self, message: &[u8], folder: &mut F) -> Result<(), SplitFault>
        requires { 16 ≤ length message.now }
        ensures same { SameDomains (buffered self.old) (buffered self.new) }
        ensures ok { OnOk result (Takes (message.now ∷ []) (buffered self.old) (F.files folder.old) (buffered self.new) (F.files folder.new)) }
        ensures err { OnErr result (Begins (message.now ∷ []) (buffered self.old) (F.files folder.old) (F.files folder.new)) }
        ensures fault { IfErr result (AreRefused (message.now ∷ []) (buffered self.old)) }
        ensures count { CountsWrite result (F.failures folder.old) (F.failures folder.new) }
    {
        let domain = domain_of(message);
        match self.buffers.get_mut(&domain) {
            Some(buffer) => keep(domain, buffer, message, folder),
            None => Err(SplitFault::Changed),
        }
    }

    // Takes the messages at the front in their order, and gives what is behind them.
    fn take_messages<'a, F: Folder>(
        &mut self,
        octets: &'a [u8],
        folder: &mut F,
    ) -> Result<&'a [u8], SplitFault>
        ensures same { SameDomains (buffered self.old) (buffered self.new) }
        ensures ok { IfOk result (λ rest. TakesPiece (Holds []) octets.now (Holds rest.now)
            (buffered self.old) (F.files folder.old) (buffered self.new) (F.files folder.new)) }
        ensures few { IfOk result (λ rest. length rest.now < 65536) }
        ensures err { IfErr result (StopsInPiece (Holds []) octets.now (buffered self.old) (F.files folder.old) (F.files folder.new)) }
        ensures count { CountsWrite result (F.failures folder.old) (F.failures folder.new) }
    {
        let mut rest = octets;
        loop {
            match frame_length(rest) {
                Ok(Some(length)) => {
                    let (message, behind) = rest.split_at(length);
                    self.take_message(message, folder)?;
                    rest = behind;
                }
                Ok(None) => return Ok(rest),
                Err(fault) => return Err(SplitFault::Wire(fault)),
            }
        }
    }

    // Takes the next piece of the capture, for which there is room behind what is held.
    fn take_piece<F: Folder>(
        &mut self,
        held: &mut Vec<u8>,
        piece: &[u8],
        folder: &mut F,
    ) -> Result<(), SplitFault>
        requires room { vec_len held.old + length piece.now ≤ vec_capacity held.old }
        ensures same { SameDomains (buffered self.old) (buffered self.new) }
        ensures ok { OnOk result (TakesPiece (Holds held.old.items) piece.now (Holds held.new.items)
            (buffered self.old) (F.files folder.old) (buffered self.new) (F.files folder.new)) }
        ensures few { OnOk result (vec_len held.new < 65536) }
        ensures room { OnOk result (vec_capacity held.old ≤ vec_capacity held.new) }
        ensures err { IfErr result (StopsInPiece (Holds held.old.items) piece.now (buffered self.old) (F.files folder.old) (F.files folder.new)) }
        ensures count { CountsWrite result (F.failures folder.old) (F.failures folder.new) }
    {
        let Ok(()) = held.extend_from_slice(piece) else {
            unreachable!();
        };
        let left = self.take_messages(held.as_slice(), folder)?.len();
        leave_end(held, left);
        Ok(())
    }

    // Reads a capture to its end. What is held is less than a message, and has room for a piece behind it, so no memory
    // is taken.
    pub(crate) fn take_all<R: Read, F: Folder>(
        &mut self,
        piece: Vec<u8>,
        held: Vec<u8>,
        reader: &mut R,
        folder: &mut F,
    ) -> Result<(), SplitFault>
        requires piece { length piece.items ≡ 65536 }
        requires none { held.items ≡ [] }
        requires room { 131071 ≤ vec_capacity held }
        ensures same { SameDomains (buffered self.old) (buffered self.new) }
        ensures ok { OnOk result ((octets : List ℕ) → R.left reader.old ≡ Some octets
            → Takes (frames_of octets).0 (buffered self.old) (F.files folder.old) (buffered self.new) (F.files folder.new)) }
        ensures right { OnOk result ((octets : List ℕ) → R.left reader.old ≡ Some octets → ending (frames_of octets).1 ≡ Ok tt) }
        ensures err { OnErr result ((octets : List ℕ) → R.left reader.old ≡ Some octets
            → Begins (frames_of octets).0 (buffered self.old) (F.files folder.old) (F.files folder.new)) }
        ensures fault { IfErr result (λ e. (octets : List ℕ) → R.left reader.old ≡ Some octets → IsSecondRefused octets (buffered self.old) e) }
        ensures memory { IfErr result (λ e. e ≢ SplitFault.Memory) }
        ensures count { CountsWrite result (F.failures folder.old) (F.failures folder.new) }
        ensures read { CountsRead result (R.failures reader.old) (R.failures reader.new) }
        ensures turns { IsErrOf result (SplitFault.Read ReadFault.Turns) → R.reads reader.new ≡ R.reads reader.old + most_turns }
    {
        let mut piece = piece;
        let mut held = held;
        for _turn in 0..u64::MAX {
            match reader.read(piece.as_mut_slice()) {
                Ok(0) => return finish(held.as_slice()),
                Ok(n) => self.take_piece(&mut held, &piece[..n], folder)?,
                Err(_) => return Err(SplitFault::Read(ReadFault::Read)),
            }
        }
        Err(SplitFault::Read(ReadFault::Turns))
    }

    // Writes what the buffer of a domain holds, where it has one.
    fn empty_one<F: Folder>(&mut self, domain: u32, folder: &mut F) -> Result<(), SplitFault>
        ensures same { SameDomains (buffered self.old) (buffered self.new) }
        ensures ok { OnOk result (Takes [] (buffered self.old) (F.files folder.old) (buffered self.new) (F.files folder.new)) }
        ensures empty { OnOk result ((kept : List ℕ) → buffered self.new domain ≡ Some kept → kept ≡ []) }
        ensures others { (d : ℕ) → (d == domain) ≡ false → buffered self.new d ≡ buffered self.old d }
        ensures err { OnErr result (Begins [] (buffered self.old) (F.files folder.old) (F.files folder.new)) }
        ensures fault { IfErr result (λ e. e ≡ SplitFault.Write) }
        ensures count { CountsWrite result (F.failures folder.old) (F.failures folder.new) }
    {
        if let Some(buffer) = self.buffers.get_mut(&domain) {
            append_all(domain, buffer.as_slice(), folder)?;
            buffer.clear();
        }
        Ok(())
    }

    // Writes what the buffers of these domains hold.
    pub(crate) fn empty<F: Folder>(
        &mut self,
        domains: &[u32],
        folder: &mut F,
    ) -> Result<(), SplitFault>
        ensures same { SameDomains (buffered self.old) (buffered self.new) }
        ensures ok { OnOk result (Takes [] (buffered self.old) (F.files folder.old) (buffered self.new) (F.files folder.new)) }
        ensures empty { OnOk result ((d : ℕ) (kept : List ℕ) → is_among d domains.now ≡ true → buffered self.new d ≡ Some kept → kept ≡ []) }
        ensures err { OnErr result (Begins [] (buffered self.old) (F.files folder.old) (F.files folder.new)) }
        ensures fault { IfErr result (λ e. e ≡ SplitFault.Write) }
        ensures count { CountsWrite result (F.failures folder.old) (F.failures folder.new) }
    {
        for domain in domains {
            self.empty_one(*domain, folder)?;
        }
        Ok(())
    }
}
