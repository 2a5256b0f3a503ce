//! The sets of a message, one after the other.
ghost use Rattle.std.specs.Prelude.{◌≡◌, ◌<◌, ◌≤◌, ◌+◌, ◌++◌, ◌∷◌, ◌^◌, List, ℕ, Bool, [], length, if◌then◌else◌, OnOk, IfOk, IfErr, Some, None, Ok, Err, true, false};
ghost use Rattle.std.specs.Option.{is_none};
ghost use Rattle.std.specs.Map.{keys_of};
ghost use Rattle.std.specs.List.{list_any};
ghost use Rattle.tca_templates.specs.Reading.{ReadMessage, body_of, set_of, read_of};
ghost use Rattle.tca_templates.specs.Sessions.{HaveOctets, IsSession, of_others, ArePlaced, IsReading};
ghost use Rattle.tca_templates.specs.FirstFaults.{IsFirstFault};
ghost use Rattle.tca_templates.specs.declared.fault.DecodeFault.{DecodeFault};
ghost use Rattle.tca_templates.specs.Templates.{Key, Templates, TemplateView, same_key, define, withdraw, withdraw_all, known};
ghost use Rattle.tca_templates.specs.declared.source.Source.{Source};
ghost use Rattle.tca_wire.specs.declared.message.SetSpan.{SetSpan};
ghost use Rattle.tca_templates.specs.Fields.{templates_of, is_read};
ghost use Rattle.tca_templates.specs.Taking.{GivesAs, HasCome};
ghost use Rattle.tca_templates.specs.Wants.{IsWantedInSet, WantsMemory};
ghost use Rattle.tca_templates.specs.Refusals.{HoldsInSet, HoldsInFront};

use crate::fault::DecodeFault;
use crate::record::{TakesRecords, read_records};
use crate::slots::Slots;
use crate::source::Source;
use crate::store::read_templates;
use std::alloc::Global;
use tca_wire::{Message, SetSpan};

// What has come of a message beside its records.
#[derive(Clone, Copy)]
pub(crate) struct Aside {
    /// The first set of an unknown template.
    pub unplaced: Option<u16>,
    /// How many sets were skipped.
    pub skipped: u32,
    /// How many records there were.
    pub count: u32,
}

// The octets of a set, behind its header.
fn set_body<'a>(octets: &'a [u8], set: SetSpan) -> &'a [u8]
    requires least { 4 ≤ set.length }
    requires within { set.at + set.length ≤ length octets.now }
    ensures { result.now ≡ body_of octets.now set }
{
    let (whole, _) = octets.split_at(set.at as usize + set.length as usize);
    let (_, body) = whole.split_at(set.at as usize + 4);
    body
}

// Goes over one set.
fn read_set<T: TakesRecords>(
    alloc: Global,
    templates: &mut Slots,
    source: Source,
    message: &Message<'_>,
    set: SetSpan,
    aside: Aside,
    taker: &mut T,
) -> Result<Aside, DecodeFault>
    requires least { 4 ≤ set.length }
    requires within { set.at + set.length ≤ length message.now.octets.now }
    requires short { length message.now.octets.now < 2 ^ 16 }
    requires few { aside.count ≤ set.at }
    requires skipped { aside.skipped + 1 < 2 ^ 32 }
    ensures exact { (start : T) (given : ReadMessage) → HasCome T.took start taker.old templates.old aside given
        → GivesAs DecodeFault.Memory (λ x after. HasCome T.took start taker.new templates.new x after) result
        (set_of source message.now.octets.now given set) }
    ensures wanted { result ≡ Err DecodeFault.Memory → (start : T) (given : ReadMessage) → HasCome T.took start taker.old templates.old aside given
        → IsWantedInSet source message.now.octets.now given set }
    ensures held { (start : T) (given : ReadMessage) → HasCome T.took start taker.old templates.old aside given
        → IfErr result (λ f. HoldsInSet T.took start taker.new source message.now.octets.now given set f) }
    ensures few { IfOk result (λ x. x.count ≤ set.at + set.length) }
    ensures skipped { IfOk result (λ x. x.skipped ≤ aside.skipped + 1) }
    ensures before { templates.new.before ≡ templates.old.before }
    ensures memory { result ≡ Err DecodeFault.Memory → is_read set ≡ true }
{
    let at = set.at + 4;
    let body = set_body(message.octets, set);
    if set.id == 2 {
        read_templates(alloc, templates, source.domain, false, at, body)?;
        return Ok(aside);
    }
    if set.id == 3 {
        read_templates(alloc, templates, source.domain, true, at, body)?;
        return Ok(aside);
    }
    if set.id < 256 {
        return Ok(Aside {
            unplaced: aside.unplaced,
            skipped: aside.skipped + 1,
            count: aside.count,
        });
    }
    if aside.unplaced.is_some() {
        return Ok(aside);
    }
    let Some(template) = templates.find(source.domain, set.id) else {
        return Ok(Aside {
            unplaced: Some(set.id),
            skipped: aside.skipped,
            count: aside.count,
        });
    };
    let count = read_records(source, template, aside.count, at, body, taker)?;
    Ok(Aside {
        unplaced: aside.unplaced,
        skipped: aside.skipped,
        count,
    })
}

// Goes over the sets of a message and hands on its records. An `Err` leaves the templates half changed where a
// template set is there.
pub(crate) fn read_sets<T: TakesRecords>(
    alloc: Global,
    templates: &mut Slots,
    source: Source,
    message: &Message<'_>,
    taker: &mut T,
) -> Result<Aside, DecodeFault>
    ensures exact { (start : T) → T.took start [] taker.old
        → GivesAs DecodeFault.Memory (λ x after. HasCome T.took start taker.new templates.new x after) result
        (read_of (templates_of templates.old) source message.now.octets.now message.now.sets.items) }
    ensures wanted { result ≡ Err DecodeFault.Memory → (start : T) → T.took start [] taker.old
        → WantsMemory (templates_of templates.old) source message.now.octets.now message.now.sets.items }
    ensures held { (start : T) → T.took start [] taker.old
        → IfErr result (λ f. HoldsInFront T.took start taker.new (templates_of templates.old) source message.now.octets.now message.now.sets.items f) }
    ensures few { IfOk result (λ x. x.count ≤ message.now.header.length) }
    ensures skipped { IfOk result (λ x. x.skipped ≤ message.now.header.length) }
    ensures before { templates.new.before ≡ templates.old.before }
    ensures memory { result ≡ Err DecodeFault.Memory → list_any is_read message.now.sets.items ≡ true }
{
    let mut aside = Aside {
        unplaced: None,
        skipped: 0,
        count: 0,
    };
    for set in &message.sets {
        aside = read_set(alloc, templates, source, message, *set, aside, taker)?;
    }
    Ok(aside)
}

/// The law of readings: what is read set by set from the left is what the message is in its session by RFC 7011, and
/// where it is no message of that session, the one fault before which all is right. So it is where no template that is
/// known gives its records no octet.
pub fn reading_laws()
    ensures found { (ts : Templates) (source : Source) (octets : List ℕ) (ss : List SetSpan) (given : ReadMessage) → HaveOctets ts
        → read_of ts source octets ss ≡ Ok given → IsReading ts source octets ss given }
    ensures only { (ts : Templates) (source : Source) (octets : List ℕ) (ss : List SetSpan) (given : ReadMessage) → IsReading ts source octets ss given
        → read_of ts source octets ss ≡ Ok given }
    ensures fault { (ts : Templates) (source : Source) (octets : List ℕ) (ss : List SetSpan) (f : DecodeFault) → HaveOctets ts
        → read_of ts source octets ss ≡ Err f → IsFirstFault ts source octets ss f }
    ensures no_other { (ts : Templates) (source : Source) (octets : List ℕ) (ss : List SetSpan) (f : DecodeFault) → HaveOctets ts
        → IsFirstFault ts source octets ss f → read_of ts source octets ss ≡ Err f }
{}

/// The law of sessions: what a session knows is a finite map from observation domain and ID to a template, within its limits, and
/// every message that is read leaves it one. A definition sets its key, which keeps its place where it is known and else goes last,
/// and withdrawals remove theirs. Record `i` of a message, from 0, has the place of the message's sequence number and `i`.
pub fn session_laws()
    ensures opens { IsSession [] }
    ensures stays { (ts : Templates) (source : Source) (octets : List ℕ) (ss : List SetSpan) (given : ReadMessage) → IsSession ts
        → IsReading ts source octets ss given → IsSession given.templates }
    ensures defined { (k j : Key) (t : TemplateView) (ts : Templates) → known j (define k t ts) ≡ (if same_key j k then Some t else known j ts) }
    ensures order { (k : Key) (t : TemplateView) (ts : Templates) → keys_of (define k t ts) ≡ (if is_none (known k ts) then keys_of ts ++ k ∷ [] else keys_of ts) }
    ensures withdrawn { (k j : Key) (ts : Templates) → IsSession ts → known j (withdraw k ts) ≡ (if same_key j k then None else known j ts) }
    ensures all_withdrawn { (domain : ℕ) (options : Bool) (j : Key) (ts : Templates) → IsSession ts
        → known j (withdraw_all domain options ts) ≡ of_others domain options j (known j ts) }
    ensures places { (ts : Templates) (source : Source) (octets : List ℕ) (ss : List SetSpan) (given : ReadMessage) → IsReading ts source octets ss given
        → ArePlaced source 0 given.records }
{}
