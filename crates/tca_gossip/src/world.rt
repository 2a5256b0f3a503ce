//! Replicas that are run by a list of steps.
ghost use Rattle.std.specs.Prelude.{◌≡◌, ◌≢◌, ◌+◌, ◌<◌, ◌↔◌, length, map, slice_set, MatchOption, IfOk, IfErr, OnOk, OnErr, IsTrue, false};
ghost use Rattle.std.specs.List.{Contains};
ghost use Rattle.tca_join.specs.Faults.{IsJoinFault};
ghost use Rattle.tca_gossip.specs.Replicas.{merge_clash, merge_full, merged_with};
ghost use Rattle.tca_gossip.specs.Machines.{Machine, new_machine};
ghost use Rattle.tca_gossip.specs.Steps.{Take, Ask, Answer, Deliver, Merge};
ghost use Rattle.tca_gossip.specs.Coupling.{AreDistinct, IsCoupled, StepsTo, RunsTo, new_world};
ghost use Rattle.tca_gossip.specs.Worlds.{step_view, reply_view, message_view, IsPlace, IsSending, OfBoth, is_named, with_name, IsWorldFault};

use crate::fault::WorldFault;
use crate::message::Message;
use crate::replica::Replica;
use crate::step::{Reply, Step};
use std::alloc::{AllocError, Global};
use std::marker::Model;
use tca_accounts::Plan;
use tca_join::JoinFault;
use tca_report::Report;

/// Replicas of one plan with different names, and all messages that they ever sent.
///
/// Nothing is lost here, and nothing comes by itself: a message comes to a replica where a step says so, also out of order, again,
/// or never. Whatever the steps are, no delivery is forked or ahead of its owner, no merge clashes, and replicas that hold equally
/// much of each origin have equal logs and equal bills.
#[derive(Drop)]
pub struct World {
    alloc: Global,
    plan: Plan,
    replicas: Vec<Replica>,
    sent: Vec<Message>,
}

impl Model for World {
    ghost use Rattle.std.specs.Prelude.{map};
    ghost use Rattle.tca_gossip.specs.Coupling.{WorldView};
    ghost use Rattle.tca_gossip.specs.Worlds.{message_view};

    ghost Value = { WorldView };

    ghost view = { λ w. record { plan = w.plan; replicas = w.replicas.items; sent = map message_view w.sent.items } };
}

// Whether no name stands twice.
fn are_distinct(names: &[u32]) -> bool
    ensures { IsTrue result ↔ AreDistinct names.now }
{
    let mut rest = names;
    while let Some((name, others)) = rest.split_first() {
        if others.contains(name) {
            return false;
        }
        rest = others;
    }
    true
}

/// How many messages a world may send.
const MESSAGES: usize = 4_294_967_295;

impl World {
    /// Replicas of these names that hold nothing. `NameTwice` comes where a name stands twice, else `Memory` where a growth was refused.
    pub fn new(alloc: Global, names: &[u32], plan: &Plan) -> Result<World, WorldFault>
        ensures empty { IfOk result (λ w. w ≡ new_world plan.now names.now) }
        ensures starts { IfOk result (λ w. IsCoupled (new_machine names.now) w) }
        ensures fault { IfErr result (IsWorldFault names.now) }
    {
        if !are_distinct(names) {
            return Err(WorldFault::NameTwice);
        }
        let own = plan.copy(alloc)?;
        let mut world = World {
            alloc,
            plan: own,
            replicas: Vec::new(alloc),
            sent: Vec::new(alloc),
        };
        for name in names {
            world.open(*name)?;
        }
        Ok(world)
    }

    // One more replica, which holds nothing.
    fn open(&mut self, name: u32) -> Result<(), AllocError>
        ensures { OnOk result (self.new ≡ with_name self.old name) }
    {
        let plan = self.plan.copy(self.alloc)?;
        let replica = Replica::new(self.alloc, name, plan)?;
        self.replicas.push(replica)?;
        Ok(())
    }

    /// The replica of a name.
    pub fn replica(&self, name: u32) -> Option<&Replica>
        ensures { MatchOption result (is_named self.now name ≡ false) (λ r. (r.now.name ≡ name) × Contains self.now.replicas r.now) }
    {
        match self.place(name) {
            Some(i) => Some(&self.replicas[i]),
            None => None,
        }
    }

    // Where the replica of a name is.
    fn place(&self, name: u32) -> Option<usize>
        ensures { IsPlace self.now name result }
    {
        for i in 0..self.replicas.len() {
            if self.replicas[i].name() == name {
                return Some(i);
            }
        }
        None
    }

    // Sends a message, and answers its number.
    fn send(&mut self, message: Message) -> Option<u32>
        requires { length self.old.sent < 4294967295 }
        ensures { IsSending self.old (message_view message) result self.new }
    {
        let number = self.sent.len() as u32;
        match self.sent.push(message) {
            Ok(()) => Some(number),
            Err(_) => None,
        }
    }

    // The replica of a name takes reports.
    fn take(&mut self, at: u32, reports: &[Report]) -> Reply
        ensures steps { (m : Machine) → IsCoupled m self.old → StepsTo m (Take at reports.now) (reply_view result) self.new }
        ensures plan { self.new.plan ≡ self.old.plan }
    {
        match self.place(at) {
            Some(i) => Reply::Took(self.replicas[i].take(reports)),
            None => Reply::Nothing,
        }
    }

    // It sends how much it holds.
    fn ask(&mut self, at: u32) -> Reply
        ensures steps { (m : Machine) → IsCoupled m self.old → StepsTo m (Ask at) (reply_view result) self.new }
        ensures plan { self.new.plan ≡ self.old.plan }
    {
        if self.sent.len() >= MESSAGES {
            return Reply::Nothing;
        }
        match self.place(at) {
            Some(i) => match self.replicas[i].summary() {
                Ok(counts) => match self.send(Message::Counts(counts)) {
                    Some(number) => Reply::Sent(number),
                    None => Reply::NoMemory,
                },
                Err(_) => Reply::NoMemory,
            },
            None => Reply::Nothing,
        }
    }

    // It sends what it holds past the counts of a message.
    fn answer(&mut self, at: u32, message: u32) -> Reply
        ensures steps { (m : Machine) → IsCoupled m self.old → StepsTo m (Answer at message) (reply_view result) self.new }
        ensures plan { self.new.plan ≡ self.old.plan }
    {
        if self.sent.len() >= MESSAGES {
            return Reply::Nothing;
        }
        let Some(i) = self.place(at) else {
            return Reply::Nothing;
        };
        match self.sent.get(message as usize) {
            Some(Message::Counts(counts)) => match self.replicas[i].delta(counts) {
                Ok(delta) => {
                    // For its clause alone: the runs of a delta are right.
                    let _right = delta.runs();
                    match self.send(Message::Parts(delta)) {
                        Some(number) => Reply::Sent(number),
                        None => Reply::NoMemory,
                    }
                }
                Err(_) => Reply::NoMemory,
            },
            Some(Message::Parts(_)) => Reply::Nothing,
            None => Reply::Nothing,
        }
    }

    // The parts of a message come to it.
    fn deliver(&mut self, message: u32, to: u32) -> Reply
        ensures steps { (m : Machine) → IsCoupled m self.old → StepsTo m (Deliver message to) (reply_view result) self.new }
        ensures plan { self.new.plan ≡ self.old.plan }
    {
        match self.place(to) {
            Some(i) => match self.sent.get(message as usize) {
                Some(Message::Parts(delta)) => Reply::Absorbed(self.replicas[i].absorb(delta)),
                Some(Message::Counts(_)) => Reply::Nothing,
                None => Reply::Nothing,
            },
            None => Reply::Nothing,
        }
    }

    // It joins what another one holds.
    fn merge(&mut self, into: u32, other: u32) -> Reply
        ensures steps { (m : Machine) → IsCoupled m self.old → StepsTo m (Merge into other) (reply_view result) self.new }
        ensures plan { self.new.plan ≡ self.old.plan }
    {
        match self.place(into) {
            Some(i) => match self.place(other) {
                Some(j) => {
                    if into == other {
                        return Reply::Merged(Ok(()));
                    }
                    Reply::Merged(merge_two(&mut self.replicas, i, j))
                }
                None => Reply::Nothing,
            },
            None => Reply::Nothing,
        }
    }

    // One step.
    fn step(&mut self, step: &Step) -> Reply
        ensures steps { (m : Machine) → IsCoupled m self.old → StepsTo m (step_view step.now) (reply_view result) self.new }
        ensures plan { self.new.plan ≡ self.old.plan }
    {
        match step {
            Step::Take { at, reports } => self.take(*at, reports),
            Step::Ask { at } => self.ask(*at),
            Step::Answer { at, message } => self.answer(*at, *message),
            Step::Deliver { message, to } => self.deliver(*message, *to),
            Step::Merge { into, other } => self.merge(*into, *other),
        }
    }

    /// Does the steps in order, and answers each. A world may be run again, and goes on from where it is.
    ///
    /// Where there is no memory for the replies, no step is done. What a single step is refused its reply says, and the steps after
    /// it are done all the same.
    pub fn run(&mut self, steps: &[Step]) -> Result<Vec<Reply>, AllocError>
        ensures run { (m : Machine) → IsCoupled m self.old → IfOk result (λ replies. RunsTo m (map step_view steps.now) (map reply_view replies.items) self.new) }
        ensures plan { self.new.plan ≡ self.old.plan }
        ensures err { OnErr result (self.new ≡ self.old) }
        ensures some { OnErr result (0 < length steps.now) }
    {
        let mut replies = Vec::with_capacity(self.alloc, steps.len())?;
        for step in steps {
            let reply = self.step(step);
            replies.push_reserved(reply);
        }
        Ok(replies)
    }
}

// Where the element of a place stands once that of another place was taken out.
fn place_without(place: usize, out: usize) -> usize
    requires { place ≢ out }
    ensures before { place < out → result ≡ place }
    ensures after { out < place → result + 1 ≡ place }
{
    if place < out { place } else { place - 1 }
}

// Merges the replica at a place with the one at another place. It is taken out of the list for that and put back, and the room that
// it had is still there then.
fn merge_two(replicas: &mut Vec<Replica>, into: usize, other: usize) -> Result<(), JoinFault>
    requires into_there { into < length replicas.old.items }
    requires other_there { other < length replicas.old.items }
    requires apart { into ≢ other }
    ensures ok { OnOk result (OfBoth replicas.old.items into other (λ v u. replicas.new.items ≡ slice_set replicas.old.items into (merged_with v u))) }
    ensures err { OnErr result (replicas.new.items ≡ replicas.old.items) }
    ensures fault { IfErr result (λ e. OfBoth replicas.old.items into other (λ v u. IsJoinFault (merge_clash ⟦<Report as PartialEq>⟧.eq v u) (merge_full v u) e)) }
{
    let mut own = replicas.remove(into);
    let at = place_without(other, into);
    let result = own.merge(&replicas[at]);
    let _ = replicas.insert(into, own);
    result
}
