//! A session, which reads messages.
ghost use Rattle.std.specs.Prelude.{◌≡◌, ◌≢◌, ◌<◌, ◌≤◌, ◌^◌, length, OnOk, OnErr, IfOk, IfErr, Ok, Err, map, true};
ghost use Rattle.std.specs.List.{list_any};
ghost use Rattle.tca_join.specs.Results.{Gives};
ghost use Rattle.tca_templates.specs.Templates.{listed};
ghost use Rattle.tca_templates.specs.Records.{source_of};
ghost use Rattle.tca_templates.specs.Reading.{read_of, ReadMessage};
ghost use Rattle.tca_templates.specs.Sessions.{IsReading};
ghost use Rattle.tca_templates.specs.FirstFaults.{IsFirstFault};
ghost use Rattle.tca_templates.specs.Fields.{is_read};
ghost use Rattle.tca_templates.specs.Taking.{GivesAs};
ghost use Rattle.tca_templates.specs.Wants.{WantsMemory};
ghost use Rattle.tca_templates.specs.Refusals.{HoldsInFront};
ghost use Rattle.tca_templates.specs.Handing.{IsHanded};
ghost use Rattle.tca_templates.specs.Outcomes.{outcome_view};

use crate::fault::DecodeFault;
use crate::iter::TemplatesIter;
use crate::outcome::{Outcome, read_message};
use crate::reading::read_sets;
use crate::record::TakesRecords;
use crate::slots::Slots;
use crate::source::Source;
use std::alloc::Global;
use std::marker::Model;
use tca_wire::Message;

/// One transport session: its number, and the templates that its messages defined (RFC 7011, sections 2 and 8).
#[derive(Drop)]
pub struct Decoder {
    session: u32,
    templates: Slots,
}

/// What a message gave beside its records.
#[derive(Drop)]
pub struct Handed {
    /// The session, which knows the message's templates.
    pub decoder: Decoder,
    /// The ID of the first data set whose template isn't known.
    pub unplaced: Option<u16>,
    /// How many sets have an ID that is neither of templates nor of data.
    pub skipped: u32,
}

impl Model for Decoder {
    ghost use Rattle.tca_templates.specs.Templates.{SessionView};
    ghost use Rattle.tca_templates.specs.Fields.{templates_of};

    ghost Value = { SessionView };

    ghost view = { λ d. record { number = d.session; templates = templates_of d.templates } };
}

impl Decoder {
    ghost use Rattle.std.specs.Prelude.{[]};

    /// A transport session without templates. It takes no memory.
    ///
    /// No message says which session it is of: the operator gives each a number. In every session an exporter counts the
    /// data records of an observation domain anew (RFC 7011, sections 2 and 3.1), so two sessions of one domain are to
    /// have distinct numbers, lest records of both have one place.
    pub fn new(alloc: Global, session: u32) -> Decoder
        ensures { result ≡ record { number = session; templates = [] } }
    {
        Decoder {
            session,
            templates: Slots::new(alloc),
        }
    }

    /// The observation domain, the ID and the kind (`true` for options) of each template, in the order in which
    /// they were first seen. A redefined template keeps its place; one that was withdrawn and is defined again
    /// goes last. It takes no memory.
    pub fn templates(&self) -> TemplatesIter<'_>
        ensures list { result ≡ listed self.now.templates }
        ensures fits { length result < 2 ^ 63 }
    {
        TemplatesIter::new(&self.templates)
    }

    /// Hands the data records of a message to `taker`, one after the other, in the message's octets. It takes no memory
    /// but for new templates and what the taker takes.
    ///
    /// An `Err` is the first fault from the left, or `Memory` where a growth was refused. `taker` then holds the records
    /// in front of it. The decoder is gone, since it may have learnt templates of the refused message.
    ///
    /// In a template record (RFC 7011, sections 3.4 and 8.1) the order is: an ID below 256 that isn't a withdrawal of
    /// all `TemplateId`; more than 512 fields `TooMany`; fewer than 6 octets of an options template `TemplateCut`;
    /// no scope field, or more of them than fields, `Scope`; specifiers past the set's end `TemplateCut`; records
    /// without an octet `EmptyTemplate`; a new ID beside 4,096 templates `TooMany`. In a data set (section 3.4.3) a
    /// record past the set's end is `RecordCut`.
    pub fn hand_records<T: TakesRecords>(
        self,
        alloc: Global,
        message: &Message<'_>,
        taker: &mut T,
    ) -> Result<Handed, DecodeFault>
        // What the taker holds is what the message is in this session.
        ensures found { (start : T) → T.took start [] taker.old → IfOk result (λ x. (given : ReadMessage)
            × IsReading self.templates (source_of self.number message.now.header) message.now.octets.now message.now.sets.items given
            × IsHanded T.took start taker.new self.number message.now.header.length x given) }
        // The records of the grammar, the templates after them, or the first fault.
        ensures exact { (start : T) → T.took start [] taker.old
            → GivesAs DecodeFault.Memory (λ x after. IsHanded T.took start taker.new self.number message.now.header.length x after) result
            (read_of self.templates (source_of self.number message.now.header) message.now.octets.now message.now.sets.items) }
        // A fault is the first from the left.
        ensures first { (start : T) → T.took start [] taker.old → IfErr result (λ f. f ≢ DecodeFault.Memory
            → IsFirstFault self.templates (source_of self.number message.now.header) message.now.octets.now message.now.sets.items f) }
        // Where it is refused, the taker holds the records in front of the fault, each once and in their order.
        ensures held { (start : T) → T.took start [] taker.old → IfErr result (λ f.
            HoldsInFront T.took start taker.new self.templates (source_of self.number message.now.header) message.now.octets.now message.now.sets.items f) }
        ensures skipped { IfOk result (λ x. x.skipped ≤ message.now.header.length) }
        // Memory is wanted only where all before is right, and the record that it is wanted for.
        ensures wanted { result ≡ Err DecodeFault.Memory → (start : T) → T.took start [] taker.old
            → WantsMemory self.templates (source_of self.number message.now.header) message.now.octets.now message.now.sets.items }
        // It is wanted only where a set isn't skipped.
        ensures memory { result ≡ Err DecodeFault.Memory → list_any is_read message.now.sets.items ≡ true }
    {
        let session = self.session;
        let source = Source::of(session, message.header);
        let mut templates = self.templates;
        let aside = read_sets(alloc, &mut templates, source, message, taker)?;
        Ok(Handed {
            decoder: Decoder { session, templates },
            unplaced: aside.unplaced,
            skipped: aside.skipped,
        })
    }

    /// Reads the data records of a message, as values of their own. An `Err` is the first fault from the left, or
    /// `Memory` where a growth was refused, and leaves the templates as they were.
    ///
    /// In a template record (RFC 7011, sections 3.4 and 8.1) the order is: an ID below 256 that isn't a withdrawal of
    /// all `TemplateId`; more than 512 fields `TooMany`; fewer than 6 octets of an options template `TemplateCut`;
    /// no scope field, or more of them than fields, `Scope`; specifiers past the set's end `TemplateCut`; records
    /// without an octet `EmptyTemplate`; a new ID beside 4,096 templates `TooMany`. In a data set (section 3.4.3) a
    /// record past the set's end is `RecordCut`.
    pub fn read(&mut self, alloc: Global, message: &Message<'_>) -> Result<Outcome, DecodeFault>
        // What is read is what the message is in this session.
        ensures found { IfOk result (λ o. IsReading self.old.templates (source_of self.old.number message.now.header) message.now.octets.now message.now.sets.items (outcome_view self.new.templates o)) }
        // A fault is the first from the left.
        ensures first { IfErr result (λ f. f ≢ DecodeFault.Memory
            → IsFirstFault self.old.templates (source_of self.old.number message.now.header) message.now.octets.now message.now.sets.items f) }
        // What the message is in this session is read, unless memory runs out.
        ensures only { (given : ReadMessage) → IsReading self.old.templates (source_of self.old.number message.now.header) message.now.octets.now message.now.sets.items given →
            Gives DecodeFault.Memory (λ o. outcome_view self.new.templates o) result (Ok given) }
        // Which fault it is else: the first from the left.
        ensures exact { Gives DecodeFault.Memory (λ o. outcome_view self.new.templates o) result
            (read_of self.old.templates (source_of self.old.number message.now.header) message.now.octets.now message.now.sets.items) }
        ensures session { self.new.number ≡ self.old.number }
        ensures err { OnErr result (self.new ≡ self.old) }
        // Memory is wanted only where all before is right, and the record that it is wanted for.
        ensures wanted { result ≡ Err DecodeFault.Memory
            → WantsMemory self.old.templates (source_of self.old.number message.now.header) message.now.octets.now message.now.sets.items }
        // It is wanted only where a set isn't skipped.
        ensures memory { result ≡ Err DecodeFault.Memory → list_any is_read message.now.sets.items ≡ true }
    {
        let source = Source::of(self.session, message.header);
        read_message(alloc, &mut self.templates, source, message)
    }
}
