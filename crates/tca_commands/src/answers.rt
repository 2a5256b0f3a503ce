//! What the workers of all replicas answered, put back into the order of the inputs.
ghost use Rattle.std.specs.List.{flat_map};
ghost use Rattle.std.specs.Prelude.{◌≡◌, ◌≢◌, ℕ, ◌++◌, ◌+◌, ◌*◌, ◌<◌, ◌≤◌, ◌^◌, IfOk, IfErr, OnOk, OnErr, None, Some, length, slice_get, slice_set};
ghost use Rattle.tca_ingest.specs.Works.{AreLentResults};
ghost use Rattle.tca_report.specs.input.Inputs.{input_view};
ghost use Rattle.tca_program.specs.Noted.{IsNoted};
ghost use Rattle.tca_commands.specs.Replicated.{AnswerView, AreAnswersRefused, ArePut, AreRead, AreReplicasRefused, IsInputFault, answers_of, refusal_of, stranger_refusal};
ghost use Rattle.tca_join.specs.Sets.{in_order};
ghost use Rattle.tca_report.specs.report.Reports.{report_cmp};
ghost use Rattle.tca_program.specs.Unions.{HoldsReports, views_of, union_of};

use std::alloc::{AllocError, Global};
use std::marker::Model;
use tca_ingest::{Done, Entry, JobFault, Receipt};
use tca_join::Items;
use tca_log::{set_beside, set_of};
use tca_program::RunFault;
use tca_report::{Input, Notes, Report};

/// An input, and what came of it.
#[derive(Drop)]
pub(crate) struct Answer<'a> {
    pub(crate) input: &'a Input,
    pub(crate) result: Result<(Notes, Receipt), JobFault>,
}

impl<'a> Model for Answer<'a> {
    ghost use Rattle.tca_report.specs.input.Inputs.{input_view};
    ghost use Rattle.tca_ingest.specs.Works.{IsResult};
    ghost use Rattle.tca_commands.specs.Replicated.{AnswerView};

    ghost Value = { AnswerView };

    ghost view = { λ a. record { input = input_view a.input.now; result = a.result } };

    ghost invariant = { λ a. IsResult (input_view a.input.now) a.result };
}

/// A place for the answer of each input.
pub(crate) fn empty_places<'a>(
    alloc: Global,
    inputs: &[Input],
) -> Result<Vec<Option<Answer<'a>>>, AllocError>
    ensures { IfOk result (λ places. length places.items ≡ length inputs.now) }
{
    let mut places = Vec::with_capacity(alloc, inputs.len())?;
    for input in inputs {
        let _ = input;
        places.push(None)?;
    }
    Ok(places)
}

/// Puts the results of a replica's inputs where these inputs stand: the first at a place, each other one so many places after the one
/// before it.
pub(crate) fn put_answers<'a>(
    share: &[&'a Input],
    done: Vec<Done>,
    first: usize,
    step: usize,
    places: &mut Vec<Option<Answer<'a>>>,
) -> Result<(), RunFault>
    requires results { AreLentResults share.now done.items }
    requires apart { 1 ≤ step }
    ensures put { OnOk result (ArePut first step (answers_of share.now done.items) places.old.items places.new.items) }
    ensures outside { OnErr result ((k : ℕ) × (k < length share.now) × (length places.old.items ≤ first + k * step)) }
    ensures refused { IfErr result (λ e. e ≡ stranger_refusal) }
{
    let mut left = done;
    let mut at = first;
    for input in share {
        let Done { result, .. } = left.remove(0);
        let answer = Answer {
            input: *input,
            result,
        };
        put_answer(places, at, answer)?;
        at = at.saturating_add(step);
    }
    Ok(())
}

// Puts an answer at its place.
fn put_answer<'a>(
    places: &mut Vec<Option<Answer<'a>>>,
    at: usize,
    answer: Answer<'a>,
) -> Result<(), RunFault>
    ensures put { OnOk result (places.new.items ≡ slice_set places.old.items at (Some answer.entry)) }
    ensures inside { OnOk result (at < length places.old.items) }
    ensures outside { OnErr result (length places.old.items ≤ at) }
    ensures refused { IfErr result (λ e. e ≡ stranger_refusal) }
{
    if at >= places.len() {
        return Err(RunFault::stranger());
    }
    places[at] = Some(answer);
    Ok(())
}

// Takes the answer of an input from its place.
fn take_answer<'a>(
    places: &mut Vec<Option<Answer<'a>>>,
    n: usize,
    input: &Input,
) -> Result<Answer<'a>, RunFault>
    ensures taken { IfOk result (λ a. slice_get places.old.items n ≡ Some (Some a)) }
    ensures same { IfOk result (λ a. a.input ≡ input_view input.now) }
    ensures others { OnOk result (places.new.items ≡ slice_set places.old.items n None) }
    ensures stranger { OnErr result ((a : AnswerView) → slice_get places.old.items n ≡ Some (Some a) → a.input ≢ input_view input.now) }
    ensures refused { IfErr result (λ e. e ≡ stranger_refusal) }
{
    if n >= places.len() {
        return Err(RunFault::stranger());
    }
    let Some(answer) = std::mem::replace(&mut places[n], None) else {
        return Err(RunFault::stranger());
    };
    if !answer.input.is_same(input) {
        return Err(RunFault::stranger());
    }
    Ok(answer)
}

// The notes and the reports of input `n`, where all its reports were taken.
fn read_answer(n: u32, answer: Answer<'_>) -> Result<(Notes, Items<Report>), RunFault>
    ensures noted { IfOk result (λ x. IsNoted answer.entry.input x.0) }
    ensures holds { IfOk result (λ x. HoldsReports answer.entry.input x.1) }
    ensures none { OnOk result (refusal_of n answer.entry.result ≡ None) }
    ensures told { IfErr result (λ e. refusal_of n answer.entry.result ≡ Some e) }
    ensures refused { IfErr result (IsInputFault n answer.entry.input) }
{
    let Answer { result, .. } = answer;
    match result {
        Err(JobFault::Input(fault)) => Err(RunFault::input(n, fault)),
        Err(JobFault::Share(fault)) => Err(RunFault::share(n, fault)),
        Ok((notes, receipt)) => match receipt.entry {
            Entry::Took {
                reports,
                stop: None,
                ..
            } => Ok((notes, reports)),
            Entry::Took {
                stop: Some(fault),
                ..
            } => Err(RunFault::log(n, fault)),
            _ => unreachable!(),
        },
    }
}

/// The notes of all inputs, and the reports of each, in order.
#[derive(Drop)]
pub(crate) struct Readings {
    pub(crate) notes: Vec<Notes>,
    pub(crate) lists: Vec<Items<Report>>,
}

/// What all inputs hold, unless one is refused: the first in order that has a fault, or whose reports a replica didn't take.
pub(crate) fn readings_of<'a>(
    alloc: Global,
    inputs: &[Input],
    places: Vec<Option<Answer<'a>>>,
) -> Result<Readings, RunFault>
    requires { length inputs.now < 2 ^ 32 }
    ensures read { IfOk result (λ x. AreRead (views_of inputs.now) x.notes.items x.lists.items) }
    ensures first { IfErr result (AreAnswersRefused (views_of inputs.now) places.entry.items) }
    ensures refused { IfErr result (AreReplicasRefused (views_of inputs.now)) }
{
    let mut places = places;
    let mut notes = Vec::with_capacity(alloc, inputs.len())?;
    let mut lists = Vec::with_capacity(alloc, inputs.len())?;
    for (n, input) in inputs.iter().enumerate() {
        let answer = take_answer(&mut places, n, input)?;
        let (noted, reports) = read_answer(n as u32, answer)?;
        if notes.push(noted).is_err() || lists.push(reports).is_err() {
            return Err(RunFault::from(AllocError));
        }
    }
    Ok(Readings { notes, lists })
}

// How many reports these lists have, for room in advance.
fn count_of(lists: &[Items<Report>]) -> usize {
    let mut count: usize = 0;
    for reports in lists {
        count = count.saturating_add(reports.len());
    }
    count
}

// A list, and behind it the reports of others, one list after another.
fn append_all(first: Vec<Report>, others: Vec<Items<Report>>) -> Result<Vec<Report>, AllocError>
    ensures { IfOk result (λ all. all.items ≡ first.items ++ flat_map (λ rs. rs) others.items) }
{
    let mut all = first;
    all.reserve(count_of(&others))?;
    for reports in others {
        all.extend_from_slice(reports.as_slice())?;
    }
    Ok(all)
}

/// The reports of these lists, one list after another. The first list isn't copied where nobody else holds it.
pub(crate) fn chain_all(alloc: Global, lists: Vec<Items<Report>>) -> Result<Vec<Report>, AllocError>
    ensures { IfOk result (λ all. all.items ≡ flat_map (λ rs. rs) lists.items) }
{
    let mut others = lists;
    if others.is_empty() {
        return Ok(Vec::new(alloc));
    }
    let first = others.remove(0).into_vec(alloc)?;
    append_all(first, others)
}

// The set of a list where that needs no sorting, else the list itself.
fn set_or_list(list: Items<Report>) -> Result<Items<Report>, AllocError>
    ensures { IfOk result (λ set. in_order report_cmp set ≡ in_order report_cmp list) }
{
    match set_beside(&list)? {
        Some(set) => Ok(set),
        None => Ok(list),
    }
}

/// For each list its set where that needs no sorting, else the list itself.
pub(crate) fn sets_of(
    alloc: Global,
    lists: Vec<Items<Report>>,
) -> Result<Vec<Items<Report>>, AllocError>
    ensures { IfOk result (λ sets. union_of sets.items ≡ union_of lists.items) }
{
    let mut sets = Vec::with_capacity(alloc, lists.len())?;
    for list in lists {
        sets.push(set_or_list(list)?)?;
    }
    Ok(sets)
}

/// All reports of these lists in order, each once.
pub(crate) fn union_of(alloc: Global, lists: Vec<Items<Report>>) -> Result<Vec<Report>, AllocError>
    ensures { IfOk result (λ all. all.items ≡ union_of lists.items) }
{
    let all = chain_all(alloc, lists)?;
    Ok(set_of(all))
}
