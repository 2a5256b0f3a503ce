//! What the calls of replicas come to in a world of replicas.
ghost use Rattle.tca_gossip.specs.Holding.{ClashesAtLeast, JoinsWhereItMay, MayWhereItJoins, MergeAbove, MergeAgain, MergeAssociates, MergeCommutes, MergeLeast, MergeStays};
ghost use Rattle.tca_gossip.specs.WorldLaws.{DeltaIsAnswer, EqualCountsMakeEqualBills, EqualCountsMakeEqualLogs, EqualCountsShowEqualLogs, EqualSummariesMakeEqualBills, LogIsShown, MergeShowsJoined, PlanIsTheWorlds, SentRunsMayGap, ShownRunsMayGap, TakeShowsTook};
ghost use Rattle.tca_gossip.specs.WorldSteps.{AnswerIsStep, AskIsStep, DeliverIsStep, MergeIsStep, MergeWithItselfIsStep, RunGoesOn, StartsCoupled, TakeIsStep};

use tca_report::Report;

/// A merge joins what two replicas hold. It clashes exactly where the chains of some origin don't begin one with the other, or where
/// the other replica holds more of the own name, and then names the least such origin. On the chains and the log of replicas that
/// don't clash either way it commutes, associates, changes nothing where a replica is merged with itself, and gives the least that
/// holds all that both do.
pub fn merge_laws()
    ensures joins { JoinsWhereItMay ⟦<Report as PartialEq>⟧.eq }
    ensures may { MayWhereItJoins ⟦<Report as PartialEq>⟧.eq }
    ensures least_fault { ClashesAtLeast ⟦<Report as PartialEq>⟧.eq }
    ensures stays { MergeStays }
    ensures commutes { MergeCommutes }
    ensures associates { MergeAssociates }
    ensures again { MergeAgain }
    ensures above { MergeAbove }
    ensures least { MergeLeast }
{}

/// In a world, whatever was sent is never forked and never ahead of its owner, chains are prefixes of arrivals, and equal counts
/// give equal logs.
pub fn machine_laws()
    ensures faults { SentRunsMayGap }
    ensures takes { TakeShowsTook }
    ensures merges { MergeShowsJoined }
    ensures equal { EqualCountsShowEqualLogs }
{}

/// What the calls of a replica do in a world is a step of the machine that the world shows.
pub fn step_laws()
    ensures starts { StartsCoupled }
    ensures take { TakeIsStep }
    ensures ask { AskIsStep }
    ensures answer { AnswerIsStep }
    ensures deliver { DeliverIsStep }
    ensures merge { MergeIsStep }
    ensures itself { MergeWithItselfIsStep }
    ensures more { RunGoesOn }
{}

/// What holds of each machine that a world shows. Replicas that hold equally much of each origin, or whose summaries are equal, have
/// equal logs and equal bills.
pub fn shown_laws()
    ensures log { LogIsShown }
    ensures answer { DeltaIsAnswer }
    ensures gaps { ShownRunsMayGap }
    ensures equal { EqualCountsMakeEqualLogs }
    ensures plan { PlanIsTheWorlds }
    ensures bills { EqualCountsMakeEqualBills }
    ensures summaries { EqualSummariesMakeEqualBills }
{}
