//! Captures: messages one after the other, as a file of RFC 5655 has them.
ghost use Rattle.std.specs.Prelude.{◌≡◌, ◌≢◌, ◌<◌, ◌≤◌, ◌+◌, ◌^◌, ◌++◌, ◌∷◌, [], List, ℕ, length, IfOk, IfErr, IsErrOf, OnOk, OnErr, Err, take};
ghost use Rattle.std.specs.List.{AllByRecursion, concat};
ghost use Rattle.tca_join.specs.Results.{Gives};
ghost use Rattle.tca_wire.specs.Messages.{length_at};
ghost use Rattle.tca_wire.specs.Frames.{IsFrame, Framing, Holds};
ghost use Rattle.tca_report.specs.input.Inputs.{CaptureSoFar, capture_with, capture_after, counts_of, capture_of};
ghost use Rattle.tca_report.specs.input.Gathered.{gathered_of, gathered_view};
ghost use Rattle.tca_report.specs.input.Wants.{IsWantedFor, IsWantedInCapture};
ghost use Rattle.tca_report.specs.inside.CaptureReaders.{noted, Agrees, ReaderGives, HasRead, Brings, StandsIn, IsWantedAmong};
ghost use Rattle.tca_templates.specs.Records.{PlacedView};
ghost use Rattle.tca_report.specs.inside.Taking.{HasTaken};
ghost use Rattle.tca_report.specs.declared.input.capture.Extracted.{Extracted};
ghost use Rattle.tca_report.specs.declared.input.extraction.NotReport.{NotReport};
ghost use Rattle.tca_report.specs.declared.input.InputFault.TheVariants as faults;

use crate::input::extraction::{NotReport, extract_from, extract_usual};
use crate::input::{Gathered, InputFault, Notes};
use crate::report::Report;
use std::alloc::{AllocError, Global};
use tca_templates::{DecodeFault, Decoder, Record, TakesRecords};
use tca_wire::{Framer, Lent, Messages, WireFault, split_message};

// Octets of a capture that are looked at together.
const PIECE: usize = 65_536;

// The reports of the records so far, and how often each reason was why others make none.
#[derive(Drop)]
struct Extracted {
    reports: Vec<Report>,
    not_reports: [u64; 7],
}

// Reads a capture message by message, and holds what has come of it so far.
#[derive(Drop)]
struct CaptureReader {
    decoder: Decoder,
    taken: Extracted,
    messages: u64,
    /// Messages with a data set of a template that wasn't known.
    unplaced: u64,
    /// Sets that were skipped.
    skipped: u64,
    /// Octets of the messages so far.
    at: u64,
}

// The fault of a message, or want of memory.
fn wire_fault(at: u64, fault: WireFault) -> InputFault
    ensures fault { result ≢ InputFault.Memory → (fault ≢ WireFault.Memory) × (result ≡ faults.Wire at fault) }
    ensures memory { result ≡ InputFault.Memory → fault ≡ WireFault.Memory }
{
    match fault {
        WireFault::Memory => InputFault::Memory,
        _ => InputFault::Wire { at, fault },
    }
}

// The fault of a message's sets, or want of memory.
fn decode_fault(at: u64, fault: DecodeFault) -> InputFault
    ensures fault { result ≢ InputFault.Memory → (fault ≢ DecodeFault.Memory) × (result ≡ faults.Decode at fault) }
    ensures memory { result ≡ InputFault.Memory → fault ≡ DecodeFault.Memory }
{
    match fault {
        DecodeFault::Memory => InputFault::Memory,
        _ => InputFault::Decode { at, fault },
    }
}

// Counts a record that is no report. No count wraps where there are fewer than 2^64 records.
fn count_reason(counts: &mut [u64; 7], reason: NotReport)
    ensures { (reasons : List NotReport) → counts.old ≡ counts_of reasons → length reasons + 1 < 2 ^ 64 → counts.new ≡ counts_of (reasons ++ reason ∷ []) }
{
    let index = usize::from(reason.number()) - 1;
    counts[index] = counts[index].wrapping_add(1);
}

impl TakesRecords for Extracted {
    ghost use Rattle.tca_report.specs.inside.Taking.{HasTaken};

    ghost took = { HasTaken };

    #[inline(always)]
    fn take(&mut self, next: &Record<'_>) -> Result<(), AllocError> {
        if let Some(report) = extract_usual(next) {
            self.reports.push(report)?;
            return Ok(());
        }
        take_unusual(self, next)
    }
}

// Takes a record that is judged field by field.
#[inline(never)]
fn take_unusual(taken: &mut Extracted, next: &Record<'_>) -> Result<(), AllocError>
    ensures ok { (start : Extracted) (records : List PlacedView) → HasTaken start records taken.old → OnOk result (HasTaken start (records ++ next.now ∷ []) taken.new) }
    ensures err { (start : Extracted) (records : List PlacedView) → HasTaken start records taken.old → OnErr result (HasTaken start records taken.new) }
{
    match extract_from(next) {
        Ok(report) => taken.reports.push(report)?,
        Err(reason) => count_reason(&mut taken.not_reports, reason),
    }
    Ok(())
}

impl CaptureReader {
    // Nothing yet.
    fn new(alloc: Global, session: u32) -> CaptureReader
        ensures { HasRead session [] (Holds []) result }
    {
        CaptureReader {
            decoder: Decoder::new(alloc, session),
            taken: Extracted {
                reports: Vec::new(alloc),
                not_reports: [0; 7],
            },
            messages: 0,
            unplaced: 0,
            skipped: 0,
            at: 0,
        }
    }

    // Takes the message at the front of these octets. A refusal ends the reading, so the reader is then gone.
    fn take_message(self, alloc: Global, octets: &[u8]) -> Result<CaptureReader, InputFault>
        requires held { (so_far : CaptureSoFar) × Agrees self so_far }
        requires within { self.at + length octets.now < 2 ^ 64 }
        ensures exact { (so_far : CaptureSoFar) → Agrees self so_far → ReaderGives result (capture_with self.at so_far octets.now) }
        ensures at { IfOk result (λ r. r.at ≡ self.at + length_at octets.now) }
        ensures frame { IfOk result (λ _. IsFrame (take (length_at octets.now) octets.now)) }
        ensures wanted { result ≡ Err InputFault.Memory → (so_far : CaptureSoFar) → Agrees self so_far → IsWantedFor so_far octets.now }
    {
        let message = match split_message(alloc, octets) {
            Ok(message) => message,
            Err(fault) => return Err(wire_fault(self.at, fault)),
        };
        let mut taken = self.taken;
        let handed = match self.decoder.hand_records(alloc, &message, &mut taken) {
            Ok(handed) => handed,
            Err(fault) => return Err(decode_fault(self.at, fault)),
        };
        Ok(CaptureReader {
            decoder: handed.decoder,
            taken,
            messages: self.messages + 1,
            unplaced: self.unplaced + u64::from(handed.unplaced.is_some()),
            skipped: self.skipped + u64::from(handed.skipped),
            at: self.at + u64::from(message.header.length),
        })
    }

    // Takes messages in their order.
    fn take_messages(
        self,
        alloc: Global,
        messages: Messages<'_>,
    ) -> Result<CaptureReader, InputFault>
        requires held { (so_far : CaptureSoFar) × Agrees self so_far }
        requires within { self.at + length (concat messages) < 2 ^ 64 }
        requires frames { AllByRecursion IsFrame messages }
        ensures exact { (so_far : CaptureSoFar) → Agrees self so_far → ReaderGives result (capture_after self.at so_far messages.entry) }
        ensures at { IfOk result (λ r. r.at ≡ self.at + length (concat messages.entry)) }
        ensures wanted { result ≡ Err InputFault.Memory → (so_far : CaptureSoFar) → Agrees self so_far → IsWantedAmong self.at so_far messages.entry }
    {
        let mut reader = self;
        for message in messages {
            reader = reader.take_message(alloc, message)?;
        }
        Ok(reader)
    }

    // Takes the messages that a piece of the capture brought.
    fn take_lent(self, alloc: Global, lent: &Lent<'_>) -> Result<CaptureReader, InputFault>
        requires within { (session : ℕ) × (octets : List ℕ) × (piece : List ℕ) × (after : Framing) × Brings session octets piece self lent.now after × (length octets + length piece < 2 ^ 64) }
        ensures ok { (session : ℕ) (octets piece : List ℕ) (after : Framing) → Brings session octets piece self lent.now after → IfOk result (λ r. HasRead session (octets ++ piece) after r) }
        ensures err { (session : ℕ) (octets piece behind : List ℕ) (after : Framing) → Brings session octets piece self lent.now after
            → IfErr result (λ e. e ≢ InputFault.Memory → capture_of session ((octets ++ piece) ++ behind) ≡ Err e) }
        ensures wanted { (session : ℕ) (octets piece behind : List ℕ) (after : Framing) → Brings session octets piece self lent.now after
            → result ≡ Err InputFault.Memory → IsWantedInCapture session ((octets ++ piece) ++ behind) }
    {
        let reader = self.take_messages(alloc, lent.messages())?;
        match lent.fault {
            Some(fault) => Err(wire_fault(reader.at, fault)),
            None => Ok(reader),
        }
    }

    // Reads the rest of the capture where it lies: no message is copied.
    fn read_in_place(self, alloc: Global, octets: &[u8]) -> Result<Gathered, InputFault>
        requires { (session : ℕ) × StandsIn session octets.now self }
        ensures exact { (session : ℕ) → StandsIn session octets.now self → Gives InputFault.Memory gathered_view result (gathered_of (capture_of session octets.now)) }
        ensures wanted { (session : ℕ) → StandsIn session octets.now self → result ≡ Err InputFault.Memory → IsWantedInCapture session octets.now }
    {
        let mut reader = self;
        while reader.at < octets.len() as u64 {
            let (_, rest) = octets.split_at(reader.at as usize);
            reader = reader.take_message(alloc, rest)?;
        }
        Ok(reader.gathered())
    }

    // What the capture held.
    fn gathered(self) -> Gathered
        ensures reports { result.reports.items ≡ self.taken.reports.items }
        ensures notes { result.notes ≡ noted self }
    {
        let taken = self.taken;
        let not_reports = taken.not_reports;
        let reports = taken.reports;
        let notes = Notes {
            messages: self.messages,
            not_reports,
            unplaced: self.unplaced,
            skipped: self.skipped,
        };
        Gathered { reports, notes }
    }
}

// Reads a capture piece by piece, and where a piece's messages can't be copied, the rest where it lies.
pub(crate) fn read_capture(
    alloc: Global,
    octets: &[u8],
    session: u32,
) -> Result<Gathered, InputFault>
    ensures exact { Gives InputFault.Memory gathered_view result (gathered_of (capture_of session octets.now)) }
    ensures memory { IsErrOf result InputFault.Memory → 0 < length octets.now }
    ensures wanted { result ≡ Err InputFault.Memory → IsWantedInCapture session octets.now }
{
    let mut reader = CaptureReader::new(alloc, session);
    let mut framer = Framer::new(alloc);
    let mut rest = octets;
    while !rest.is_empty() {
        let (piece, behind) = rest.split_at(rest.len().min(PIECE));
        let Ok(lent) = framer.lend(piece) else {
            return reader.read_in_place(alloc, octets);
        };
        reader = reader.take_lent(alloc, &lent)?;
        rest = behind;
    }
    match framer.finish() {
        Ok(()) => Ok(reader.gathered()),
        Err(fault) => Err(wire_fault(reader.at, fault)),
    }
}
