//! The first reading of a capture: which observation domains it has messages of, and whether its framing is right.
ghost use Rattle.std.specs.Prelude.{◌≡◌, ◌⊎◌, ◌<◌, ◌≤◌, ◌+◌, ◌++◌, ◌∷◌, ◌==◌, ◌||◌, [], ℕ, List, Some, Ok, Err, length, IfOk, OnOk, IfErr, IsErrOf};
ghost use Rattle.std.specs.BTreeSet.{contains};
ghost use Rattle.std.specs.Ordering.{nat_cmp};
ghost use Rattle.std.specs.List.{AllByRecursion};
ghost use Rattle.tca_wire.specs.Frames.{IsFrame, frames_of, ending};
ghost use Rattle.tca_wire.specs.declared.fault.WireFault.{WireFault};
ghost use Rattle.tca_split.specs.Parts.{domain_of};
ghost use Rattle.tca_split.specs.Failures.{CountsRead, most_turns};
ghost use Rattle.tca_split.specs.Faults.{framing_fault};
ghost use Rattle.tca_split.specs.Wants.{IsNewDomain, BringDomain, BringMore, WantsMemory};
ghost use Rattle.tca_split.specs.inside.Surveying.{Surveys, IsFramed, AreTooMany, IsFirstRefused, IsOfFraming, IsOfReading};

use crate::fault::{SplitFault, framing_fault};
use byteorder::{BigEndian, ByteOrder};
use std::alloc::{AllocError, Global};
use std::collections::BTreeSet;
use tca_report::{Read, ReadFault};
use tca_wire::{Framer, Messages};

// Octets of a capture that are read together.
pub(crate) const PIECE: usize = 65_536;

// Observation domains of a capture.
const MOST_DOMAINS: usize = 4096;

/// What a first reading has found.
#[derive(Drop)]
pub(crate) struct Survey {
    /// The domains, in the order in which they first came.
    pub(crate) domains: Vec<u32>,
    /// The same domains in a tree: whoever sends messages chooses them, and could choose some that share a hash.
    known: BTreeSet<u32>,
    /// How many messages came; 2^64 - 1 stands for all above it too.
    pub(crate) messages: u64,
}

// The observation domain of a message.
pub(crate) fn domain_of(message: &[u8]) -> u32
    requires { 16 ≤ length message.now }
    ensures { result ≡ domain_of message.now }
{
    BigEndian::read_u32(&message[12..])
}

// The length is a parameter, since a proof would write out a list of a known length.
pub(crate) fn new_piece(alloc: Global, size: usize) -> Result<Vec<u8>, AllocError>
    ensures { IfOk result (λ v. length v.items ≡ size) }
{
    vec![in alloc; 0u8; size]
}

impl Survey {
    // Nothing yet.
    fn new(alloc: Global) -> Survey
        ensures { Surveys [] result }
    {
        Survey {
            domains: Vec::new(alloc),
            known: BTreeSet::new(alloc),
            messages: 0,
        }
    }

    // Notes a domain that hasn't come yet.
    fn add_domain(&mut self, domain: u32) -> Result<(), SplitFault>
        ensures domains { OnOk result (self.new.domains.items ≡ self.old.domains.items ++ domain ∷ []) }
        ensures known { OnOk result ((d : ℕ) → contains nat_cmp self.new.known d ≡ (contains nat_cmp self.old.known d || (d == domain))) }
        ensures messages { self.new.messages ≡ self.old.messages }
        ensures room { OnOk result (length self.old.domains.items < 4096) }
        ensures limits { IsErrOf result SplitFault.Limits → 4096 ≤ length self.old.domains.items }
        ensures kind { IfErr result (λ e. (e ≡ SplitFault.Limits) ⊎ (e ≡ SplitFault.Memory)) }
        ensures memory { IsErrOf result SplitFault.Memory → length self.old.domains.items < 4096 }
    {
        if self.domains.len() >= MOST_DOMAINS {
            return Err(SplitFault::Limits);
        }
        self.known.insert(domain)?;
        self.domains.push(domain)?;
        Ok(())
    }

    // Counts a message, and notes its domain.
    fn take_message(self, message: &[u8]) -> Result<Survey, SplitFault>
        requires { 16 ≤ length message.now }
        ensures ok { (ms : List (List ℕ)) → Surveys ms self → IfOk result (Surveys (ms ++ message.now ∷ [])) }
        ensures err { (ms : List (List ℕ)) → Surveys ms self → IfErr result (AreTooMany (ms ++ message.now ∷ [])) }
        ensures kind { IfErr result IsOfFraming }
        ensures memory { IsErrOf result SplitFault.Memory → (ms : List (List ℕ)) → Surveys ms self → IsNewDomain ms message.now }
    {
        let domain = domain_of(message);
        let mut survey = self;
        if !survey.known.contains(&domain) {
            survey.add_domain(domain)?;
        }
        survey.messages = survey.messages.saturating_add(1);
        Ok(survey)
    }

    // Takes messages in their order.
    fn take_messages(self, messages: Messages<'_>) -> Result<Survey, SplitFault>
        requires frames { AllByRecursion IsFrame messages }
        ensures ok { (ms : List (List ℕ)) → Surveys ms self → IfOk result (Surveys (ms ++ messages.entry)) }
        ensures err { (ms : List (List ℕ)) → Surveys ms self → IfErr result (AreTooMany (ms ++ messages.entry)) }
        ensures kind { IfErr result IsOfFraming }
        ensures memory { IsErrOf result SplitFault.Memory → (ms : List (List ℕ)) → Surveys ms self → BringDomain ms messages.entry }
    {
        let mut survey = self;
        for message in messages {
            survey = survey.take_message(message)?;
        }
        Ok(survey)
    }

    // Takes the next piece of the capture.
    fn take_piece(self, framer: &mut Framer, piece: &[u8]) -> Result<Survey, SplitFault>
        ensures ok { (octets : List ℕ) (ms : List (List ℕ)) → IsFramed octets ms framer.old → Surveys ms self
            → IfOk result (λ s. (ns : List (List ℕ)) × IsFramed (octets ++ piece.now) ns framer.new × Surveys ns s) }
        ensures err { (octets behind : List ℕ) (ms : List (List ℕ)) → IsFramed octets ms framer.old → Surveys ms self
            → IfErr result (IsFirstRefused ((octets ++ piece.now) ++ behind)) }
        ensures kind { IfErr result IsOfFraming }
        ensures memory { IsErrOf result SplitFault.Memory → (octets : List ℕ) (ms : List (List ℕ)) → IsFramed octets ms framer.old
            → Surveys ms self → BringMore octets piece.now }
    {
        let lent = match framer.lend(piece) {
            Ok(lent) => lent,
            Err(fault) => return Err(framing_fault(fault)),
        };
        let survey = self.take_messages(lent.messages())?;
        match lent.fault {
            Some(fault) => Err(framing_fault(fault)),
            None => Ok(survey),
        }
    }

    // The survey of a capture that ends here, unless part of a message is left.
    fn finish(self, framer: &Framer) -> Result<Survey, SplitFault>
        ensures ok { IfOk result (λ s. (s ≡ self) × (ending framer.now ≡ Ok tt)) }
        ensures fault { IfErr result (λ e. (fault : WireFault) × (ending framer.now ≡ Err fault) × (e ≡ framing_fault fault)) }
        ensures kind { IfErr result IsOfFraming }
    {
        match framer.finish() {
            Ok(()) => Ok(self),
            Err(fault) => Err(framing_fault(fault)),
        }
    }
}

// Reads a capture to its end.
pub(crate) fn first_reading<R: Read>(alloc: Global, reader: &mut R) -> Result<Survey, SplitFault>
    ensures ok { (octets : List ℕ) → R.left reader.old ≡ Some octets
        → IfOk result (λ s. Surveys (frames_of octets).0 s × (ending (frames_of octets).1 ≡ Ok tt)) }
    ensures err { (octets : List ℕ) → R.left reader.old ≡ Some octets → IfErr result (IsFirstRefused octets) }
    ensures kind { IfErr result IsOfReading }
    ensures memory { IsErrOf result SplitFault.Memory → (octets : List ℕ) → R.left reader.old ≡ Some octets
        → (R.reads reader.new ≡ R.reads reader.old) ⊎ WantsMemory octets (R.left reader.new) }
    ensures read { CountsRead result (R.failures reader.old) (R.failures reader.new) }
    ensures turns { IsErrOf result (SplitFault.Read ReadFault.Turns) → R.reads reader.new ≡ R.reads reader.old + most_turns }
{
    let mut piece = new_piece(alloc, PIECE)?;
    let mut framer = Framer::new(alloc);
    let mut survey = Survey::new(alloc);
    for _turn in 0..u64::MAX {
        match reader.read(piece.as_mut_slice()) {
            Ok(0) => return survey.finish(&framer),
            Ok(n) => survey = survey.take_piece(&mut framer, &piece[..n])?,
            Err(_) => return Err(SplitFault::Read(ReadFault::Read)),
        }
    }
    Err(SplitFault::Read(ReadFault::Turns))
}
