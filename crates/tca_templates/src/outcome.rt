//! The records of a message as values of their own.
ghost use Rattle.std.specs.Prelude.{◌≡◌, [], length, map, true, OnOk, OnErr, IfOk, IsOk, Err};
ghost use Rattle.std.specs.List.{list_any};
ghost use Rattle.tca_join.specs.Results.{Gives};
ghost use Rattle.tca_templates.specs.Reading.{read_of};
ghost use Rattle.tca_templates.specs.Fields.{templates_of, is_read};
ghost use Rattle.tca_templates.specs.Outcomes.{outcome_view};
ghost use Rattle.tca_templates.specs.Wants.{WantsMemory};

use crate::fault::DecodeFault;
use crate::reading::read_sets;
use crate::record::{Record, TakesRecords};
use crate::slots::Slots;
use crate::source::Source;
use std::alloc::{AllocError, Global};
use tca_wire::Message;

/// A field of a data record.
#[derive(Drop)]
pub struct FieldValue {
    /// The information element, without the enterprise bit.
    pub element: u16,
    /// Whose element it is, where it isn't IANA's.
    pub enterprise: Option<u32>,
    /// The octets of the field, without those of its length.
    pub value: Vec<u8>,
}

/// A data record, and its place among those of its observation domain in its session.
#[derive(Drop)]
pub struct PlacedFields {
    /// The number of its transport session, as the decoder was given it.
    pub session: u32,
    /// Its observation domain.
    pub domain: u32,
    /// The message's sequence number and the records of the message before this one, modulo 2^32.
    pub place: u32,
    /// Whether it is a record of an options template.
    pub options: bool,
    /// Its fields, in the order of the template.
    pub fields: Vec<FieldValue>,
}

/// What a message has.
#[derive(Drop)]
pub struct Outcome {
    /// Its data records, up to the first set of an unknown template.
    pub fields: Vec<PlacedFields>,
    /// The ID of the first data set whose template isn't known.
    pub unplaced: Option<u16>,
    /// How many sets have an ID that is neither of templates nor of data: 0, 1 or 4 to 255.
    pub skipped: u32,
}

// The records of a message so far, with values of their own.
#[derive(Drop)]
struct Collector {
    alloc: Global,
    placed: Vec<PlacedFields>,
}

impl TakesRecords for Collector {
    ghost use Rattle.std.specs.Prelude.{◌≡◌, ◌++◌, map};
    ghost use Rattle.tca_templates.specs.Outcomes.{placed_view};

    ghost took = { λ start records now. map placed_view now.placed.items ≡ map placed_view start.placed.items ++ records };

    fn take(&mut self, next: &Record<'_>) -> Result<(), AllocError> {
        let fields = next.fields(self.alloc)?;
        self.placed.push(PlacedFields {
            session: next.session(),
            domain: next.domain(),
            place: next.place(),
            options: next.is_options(),
            fields,
        })?;
        Ok(())
    }
}

// Reads a message into values of its own. An `Err` leaves the templates half changed where a template set is there.
fn read_values(
    alloc: Global,
    templates: &mut Slots,
    source: Source,
    message: &Message<'_>,
) -> Result<Outcome, DecodeFault>
    ensures exact { Gives DecodeFault.Memory (λ o. outcome_view (templates_of templates.new) o) result
        (read_of (templates_of templates.old) source message.now.octets.now message.now.sets.items) }
    ensures before { templates.new.before ≡ templates.old.before }
    ensures wanted { result ≡ Err DecodeFault.Memory
        → WantsMemory (templates_of templates.old) source message.now.octets.now message.now.sets.items }
    ensures memory { result ≡ Err DecodeFault.Memory → list_any is_read message.now.sets.items ≡ true }
{
    let mut collector = Collector {
        alloc,
        placed: Vec::new(alloc),
    };
    let aside = read_sets(alloc, templates, source, message, &mut collector)?;
    Ok(Outcome {
        fields: collector.placed,
        unplaced: aside.unplaced,
        skipped: aside.skipped,
    })
}

// Reads a message. A refused message leaves the templates as they were: what it changed is put back.
pub(crate) fn read_message(
    alloc: Global,
    templates: &mut Slots,
    source: Source,
    message: &Message<'_>,
) -> Result<Outcome, DecodeFault>
    ensures exact { Gives DecodeFault.Memory (λ o. outcome_view (templates_of templates.new) o) result
        (read_of (templates_of templates.old) source message.now.octets.now message.now.sets.items) }
    ensures err { OnErr result (templates_of templates.new ≡ templates_of templates.old) }
    ensures wanted { result ≡ Err DecodeFault.Memory
        → WantsMemory (templates_of templates.old) source message.now.octets.now message.now.sets.items }
    ensures memory { result ≡ Err DecodeFault.Memory → list_any is_read message.now.sets.items ≡ true }
{
    templates.begin(alloc);
    match read_values(alloc, templates, source, message) {
        Ok(outcome) => {
            templates.keep();
            Ok(outcome)
        }
        Err(fault) => {
            templates.put_back();
            Err(fault)
        }
    }
}
