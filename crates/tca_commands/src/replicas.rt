//! Replicas that read the inputs by workers, and tell each other what they hold.
ghost use Rattle.std.specs.List.{All, range_with_len};
ghost use Rattle.std.specs.Prelude.{◌≡◌, ◌≤◌, ◌<◌, ◌+◌, IfOk, IfErr, OnOk, length, map};
ghost use Rattle.tca_ingest.specs.Closed.{replicas_of};
ghost use Rattle.tca_ingest.specs.Passes.{AreClosing};
ghost use Rattle.tca_ingest.specs.Shares.{IsReplayed, ledger_parts};
ghost use Rattle.tca_commands.specs.inside.Absorbs.{Absorbs, AreAgreed, AreJoined, HasAbsorbed, HasRightJournal, closed_with, names_of, with_lacking};
ghost use Rattle.tca_commands.specs.Replicated.{AreRead, AreReplicasRefused, IsReadingRefused, IsExchangeRefused, IsWithinLimits, share_of};
ghost use Rattle.tca_program.specs.Unions.{views_of};
ghost use Rattle.tca_report.specs.input.Inputs.{input_view};

use crate::answers::{Answer, Readings, empty_places, put_answers, readings_of};
use crate::refusals::{of_absorb, of_close, of_workers};
use std::alloc::{AllocError, Global};
use std::marker::Brand;
use std::sync::Wait;
use std::sync::ledger::Blank;
use std::thread::Threads;
use tca_accounts::Plan;
use tca_gossip::Replica;
use tca_ingest::{Closed, Entry, Gate, Pass, Shared, Side, close_all, work_on};
use tca_program::RunFault;
use tca_report::Input;

/// The parts of a replica's ledger: one for each pass, and one that stays.
pub(crate) const PARTS: u64 = 65_537;

/// What a run is given: the inputs, by how many replicas they are read, and by how many workers of each.
#[derive(Drop)]
pub(crate) struct BillSetting<'a, R, G> {
    pub(crate) rt: &'a R,
    pub(crate) alloc: Global,
    pub(crate) inputs: &'a [Input],
    pub(crate) replicas: u32,
    pub(crate) workers: u32,
    pub(crate) gate: &'a G,
}

// The inputs of a replica: those whose numbers, counted from 0, leave this remainder.
fn share_of<'a>(
    alloc: Global,
    inputs: &'a [Input],
    remainder: u32,
    divisor: u32,
) -> Result<Vec<&'a Input>, AllocError>
    requires { 1 ≤ divisor }
    ensures share { IfOk result (λ share. map (λ s. input_view s.now) share.items ≡ share_of remainder divisor (views_of inputs.now)) }
    ensures within { IfOk result (λ share. length share.items ≤ length inputs.now) }
{
    let mut share = Vec::new(alloc);
    for (n, input) in inputs.iter().enumerate() {
        if n as u64 % divisor as u64 == remainder as u64 {
            share.push(input)?;
        }
    }
    Ok(share)
}

// Has a replica's workers read its inputs, puts the answers where the inputs stand, and gives the passes back. `first` is the place of
// the first of its inputs.
fn read_share<'a, L: Side + Send + Sync, R: Threads + Wait + Sync, G: Gate>(
    setting: &BillSetting<'a, R, G>,
    shared: &Shared<L>,
    first: u32,
    places: &mut Vec<Option<Answer<'a>>>,
) -> Result<Vec<Pass<L>>, RunFault>
    requires { IsWithinLimits setting.now.replicas setting.now.workers (length setting.now.inputs.now) }
    ensures { IfErr result IsReadingRefused }
{
    let (alloc, step) = (setting.alloc, setting.replicas);
    let share = share_of(alloc, setting.inputs, first, step)?;
    let worked = of_workers(work_on(
        setting.rt,
        alloc,
        shared,
        &share,
        setting.gate,
        setting.workers,
    ))?;
    put_answers(&share, worked.done, first as usize, step as usize, places)?;
    Ok(worked.passes)
}

// Closes a replica with all its passes.
fn close<L: Side>(shared: Shared<L>, passes: Vec<Pass<L>>) -> Result<Closed, RunFault>
    ensures replayed { IfOk result (λ c. IsReplayed L.plan L.called c.replica c.journal) }
    ensures closing { IfOk result (λ c. AreClosing c.journal passes.items) }
    ensures refused { IfErr result IsReadingRefused }
{
    of_close(shared.close(passes))
}

// A replica of this name that read its inputs, closed.
fn read_and_close<'a, L: Side + Send + Sync, R: Threads + Wait + Sync, G: Gate>(
    setting: &BillSetting<'a, R, G>,
    blank: Blank,
    name: u32,
    plan: Plan,
    places: &mut Vec<Option<Answer<'a>>>,
) -> Result<Closed, RunFault>
    requires name { blank.name ≡ L.name }
    requires parts { (blank.parts ≡ L.parts) × (L.parts ≡ ledger_parts) }
    requires called { name ≡ L.called }
    requires plan { plan ≡ L.plan }
    requires above { 1 ≤ name }
    requires limits { IsWithinLimits setting.now.replicas setting.now.workers (length setting.now.inputs.now) }
    ensures replayed { IfOk result (λ c. IsReplayed plan name c.replica c.journal) }
    ensures refused { IfErr result IsReadingRefused }
{
    let shared = Shared::<L>::new(setting.alloc, blank, name, plan)?;
    let passes = read_share(setting, &shared, name - 1, places)?;
    close(shared, passes)
}

// All replicas but the first, each of which read its inputs and was closed before the next one was made.
fn others_of<'a, R: Threads + Wait + Sync, G: Gate>(
    setting: &BillSetting<'a, R, G>,
    plan: &Plan,
    places: &mut Vec<Option<Answer<'a>>>,
) -> Result<Vec<Closed>, RunFault>
    requires { IsWithinLimits setting.now.replicas setting.now.workers (length setting.now.inputs.now) }
    ensures many { IfOk result (λ others. length others.items + 1 ≡ setting.now.replicas) }
    ensures names { IfOk result (λ others. names_of others.items ≡ range_with_len 2 (length others.items)) }
    ensures right { IfOk result (λ others. All (HasRightJournal plan.now) others.items) }
    ensures refused { IfErr result IsReadingRefused }
{
    let alloc = setting.alloc;
    let mut others = Vec::new(alloc);
    for name in 2..setting.replicas + 1 {
        let copy = plan.copy(alloc)?;
        let other = read_and_close::<Brand, R, G>(setting, Blank::new(PARTS), name, copy, places)?;
        if others.push(other).is_err() {
            return Err(RunFault::from(AllocError));
        }
    }
    Ok(others)
}

// Has a shared replica absorb what it lacks of another one.
fn absorb_lacking<L: Side, R: Wait>(
    rt: &R,
    into: &Shared<L>,
    mine: &mut Pass<L>,
    from: &Replica,
) -> Result<(), RunFault>
    ensures absorbs { OnOk result (Absorbs from.now mine.old mine.new) }
    ensures refused { IfErr result IsExchangeRefused }
{
    let asked = into.summary(rt, mine)?;
    let Entry::Asked { summary, .. } = asked.entry else {
        unreachable!();
    };
    let delta = from.delta(&summary)?;
    let receipt = into.absorb(rt, mine, &delta)?;
    let Entry::Absorbed { result, .. } = receipt.entry else {
        unreachable!();
    };
    of_absorb(result)?;
    Ok(())
}

// Has a shared replica absorb what it lacks of each other one in order, and closes it.
fn absorb_and_close<L: Side, R: Wait>(
    rt: &R,
    shared: Shared<L>,
    passes: Vec<Pass<L>>,
    others: &[Closed],
) -> Result<Closed, RunFault>
    ensures replayed { IfOk result (λ c. IsReplayed L.plan L.called c.replica c.journal) }
    ensures absorbed { IfOk result (λ c. HasAbsorbed (replicas_of others.now) c.journal) }
    ensures refused { IfErr result IsExchangeRefused }
{
    let mut passes = passes;
    let mut mine = shared.pass(rt)?;
    for other in others {
        absorb_lacking(rt, &shared, &mut mine, &other.replica)?;
    }
    if passes.push(mine).is_err() {
        return Err(RunFault::from(AllocError));
    }
    close(shared, passes)
}

// Has a replica absorb what it lacks of another one.
fn tell(into: &mut Replica, from: &Replica) -> Result<(), RunFault>
    ensures told { OnOk result (into.new ≡ with_lacking into.old from.now) }
    ensures refused { IfErr result IsExchangeRefused }
{
    let summary = into.summary()?;
    let delta = from.delta(&summary)?;
    of_absorb(into.absorb(&delta))?;
    Ok(())
}

// Each other replica absorbs what it lacks of the first.
fn tell_all(others: &mut [Closed], first: &Replica) -> Result<(), RunFault>
    ensures told { OnOk result (others.new ≡ map (closed_with first.now) others.old) }
    ensures refused { IfErr result IsExchangeRefused }
{
    for other in others.iter_mut() {
        tell(&mut other.replica, first)?;
    }
    Ok(())
}

// All replicas, the first one last, where each other one absorbed what it lacked of the first and all agree.
fn agree(first: Closed, others: Vec<Closed>) -> Result<Vec<Closed>, RunFault>
    ensures agreed { IfOk result (λ all. AreAgreed first others.items all.items) }
    ensures refused { IfErr result IsExchangeRefused }
{
    let mut all = others;
    tell_all(&mut all, &first.replica)?;
    if all.push(first).is_err() {
        return Err(RunFault::from(AllocError));
    }
    close_all(&all)?;
    Ok(all)
}

/// All replicas, closed, the first one last, once it holds what all others do, and what the inputs hold.
///
/// The first replica is made and reads its inputs; then each other one is made, reads its inputs and is closed. Then comes the refusal of
/// the first input in order that has one. Then the first replica, still shared, absorbs what it lacks of each other one and is closed,
/// each other one absorbs what it lacks of the first, and all are compared.
pub(crate) fn run_replicas<'a, L: Side + Send + Sync, R: Threads + Wait + Sync, G: Gate>(
    setting: &BillSetting<'a, R, G>,
    blank: Blank,
    plan: &Plan,
    mine: Plan,
) -> Result<(Vec<Closed>, Readings), RunFault>
    requires name { blank.name ≡ L.name }
    requires parts { (blank.parts ≡ L.parts) × (L.parts ≡ ledger_parts) }
    requires called { 1 ≡ L.called }
    requires plan { mine ≡ L.plan }
    requires same { plan.now ≡ mine }
    requires limits { IsWithinLimits setting.now.replicas setting.now.workers (length setting.now.inputs.now) }
    ensures joined { IfOk result (λ x. AreJoined mine setting.now.replicas x.0.items) }
    ensures read { IfOk result (λ x. AreRead (views_of setting.now.inputs.now) x.1.notes.items x.1.lists.items) }
    ensures refused { IfErr result (AreReplicasRefused (views_of setting.now.inputs.now)) }
{
    let (rt, alloc, inputs) = (setting.rt, setting.alloc, setting.inputs);
    let mut places = empty_places(alloc, inputs)?;
    let shared = Shared::<L>::new(alloc, blank, 1, mine)?;
    let passes = read_share(setting, &shared, 0, &mut places)?;
    let others = others_of(setting, plan, &mut places)?;
    let readings = readings_of(alloc, inputs, places)?;
    let first = absorb_and_close(rt, shared, passes, &others)?;
    let all = agree(first, others)?;
    Ok((all, readings))
}
