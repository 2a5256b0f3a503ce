//! What a journal of calls says of the replica on which they were made, and of the passes that made them.
ghost use Rattle.std.specs.Prelude.{◌≡◌, ◌≢◌, ◌↔◌, ◌||◌, cond, ℕ, Option, None, Result, List, [], ◌∷◌, ◌++◌, length, take};
ghost use Rattle.std.specs.List.{All, AllPairs};
ghost use Rattle.tca_report.specs.report.Reports.{PacketReport, report_cmp};
ghost use Rattle.tca_join.specs.Sets.{has};
ghost use Rattle.tca_join.specs.Maps.{clash_key};
ghost use Rattle.tca_join.specs.Chains.{differ_at};
ghost use Rattle.tca_log.specs.declared.fault.LogFault.{LogFault};
ghost use Rattle.tca_accounts.specs.Plans.{AccountPlan};
ghost use Rattle.tca_accounts.specs.Bills.{bill_of};
ghost use Rattle.tca_accounts.specs.declared.bill.Bill.{Bill};
ghost use Rattle.tca_gossip.specs.Replicas.{ReplicaView, IsReplica, taken, chain_of, fresh_of, of};
ghost use Rattle.tca_gossip.specs.Runs.{RunView, absorbed, same_report};
ghost use Rattle.tca_gossip.specs.Coupling.{IsCoupled, counts_of};
ghost use Rattle.tca_gossip.specs.Machines.{IsWorld, Shows};
ghost use Rattle.tca_gossip.specs.declared.fault.AbsorbFault.{AbsorbFault};
ghost use Rattle.tca_ingest.specs.Entries.{EntryView, Took, Absorbed, Answered, Asked};
ghost use Rattle.tca_ingest.specs.Journals.{IsHistory, IsRight, AreRight, lists, own, part, after};
ghost use Rattle.tca_ingest.specs.Passes.{PassView, AreClosing, IsInterleaving, AllOwned, IsFound, AreMissing, IsDiffering, IsAnswered, IsAsked, calls_of, count_of, lists_of};
ghost use Rattle.tca_ingest.specs.JournalLaws.{StartsHistory, TakeGoesOn, AbsorbGoesOn, BillGoesOn, SummaryGoesOn, DeltaGoesOn, DeltaIsRight, DeltaWasSent, AgreeInLogs, AgreeInBills, AbsorbAddsToParts, LogHasTakesAndParts};
ghost use Rattle.tca_ingest.specs.Closed.{ClosedView, AreClosed, AgreeAll, IsClash, replicas_of, clash_all, world_of};

/// The empty journal is the history of a new replica. What a call of a replica answers makes an entry with which its journal goes on
/// being its history.
pub fn entry_laws()
    ensures new { StartsHistory }
    ensures took { TakeGoesOn }
    ensures absorbed { AbsorbGoesOn }
    ensures answered { BillGoesOn }
    ensures asked { SummaryGoesOn }
    ensures sent { DeltaGoesOn }
{}

/// A replica holds just what its history lists: in its log all reports, in its own chain those that were new when they were taken, and in
/// each other chain those that were absorbed of its origin.
pub fn history_laws()
    ensures replica { (plan : AccountPlan) (name : ℕ) (v : ReplicaView) (journal : List EntryView) → IsHistory plan name v journal → IsReplica v }
    ensures name { (plan : AccountPlan) (name : ℕ) (v : ReplicaView) (journal : List EntryView) → IsHistory plan name v journal → v.name ≡ name }
    ensures plan { (plan : AccountPlan) (name : ℕ) (v : ReplicaView) (journal : List EntryView) → IsHistory plan name v journal → v.plan ≡ plan }
    ensures log { (plan : AccountPlan) (name : ℕ) (v : ReplicaView) (journal : List EntryView) → IsHistory plan name v journal → v.log ≡ after name journal }
    ensures own { (plan : AccountPlan) (name : ℕ) (v : ReplicaView) (journal : List EntryView) → IsHistory plan name v journal → chain_of v name ≡ own name journal }
    ensures parts { (plan : AccountPlan) (name : ℕ) (v : ReplicaView) (journal : List EntryView) → IsHistory plan name v journal → (origin : ℕ) → origin ≢ name → chain_of v origin ≡ part name journal origin }
    ensures bill { (plan : AccountPlan) (name : ℕ) (v : ReplicaView) (journal : List EntryView) → IsHistory plan name v journal → bill_of v.plan v.log ≡ bill_of plan (after name journal) }
    ensures asked { (plan : AccountPlan) (name : ℕ) (v : ReplicaView) (journal : List EntryView) → IsHistory plan name v journal → (pass : ℕ) (summary : List (ℕ × ℕ)) → IsRight plan name (lists name journal) (Asked pass summary) ↔ (summary ≡ counts_of v.chains) }
    ensures sent { DeltaIsRight }
{}

/// Passes close a journal just where together they have as many entries as it has and each pass has the journal's entries of its
/// number, which no other pass has. The journal is an interleaving of their calls then: each call of each pass stands in it once, in the
/// pass's order. It suffices that the numbers differ, that the calls of each pass are found in the journal at ascending places, and that
/// the counts agree. Where a close is refused the passes don't close it. A bill that a pass was answered is that of all entries before it
/// in the journal, among them all that the pass took and absorbed until then; a summary counts all of these reports, and a delta has
/// those of them that its summary doesn't count.
pub fn close_laws()
    ensures interleaves { (journal : List EntryView) (passes : List PassView) → AreClosing journal passes → IsInterleaving (lists_of passes) journal }
    ensures answers { (plan : AccountPlan) (name : ℕ) (journal calls rest : List EntryView) (number pass : ℕ) (bill : Bill) → AreRight plan name journal → calls_of number journal ≡ calls ++ Answered pass bill ∷ rest → IsAnswered plan name journal calls number pass bill }
    ensures asked { (plan : AccountPlan) (name : ℕ) (journal calls rest : List EntryView) (number pass : ℕ) (summary : List (ℕ × ℕ)) → AreRight plan name journal → calls_of number journal ≡ calls ++ Asked pass summary ∷ rest → IsAsked name journal calls number pass summary }
    ensures sent { DeltaWasSent }
    ensures owned { (journal : List EntryView) (passes : List PassView) → AreClosing journal passes ↔ ((count_of passes ≡ length journal) × AllOwned journal [] passes) }
    ensures found { (journal : List EntryView) (passes : List PassView) → AllPairs (λ p q. p.number ≢ q.number) passes → All (IsFound journal) passes → count_of passes ≡ length journal → AreClosing journal passes }
    ensures missing { (journal : List EntryView) (passes : List PassView) (counted given : ℕ) → AreMissing journal passes counted given → AreClosing journal passes → ⊥ }
    ensures differing { (journal : List EntryView) (passes : List PassView) (pass : ℕ) → IsDiffering journal passes pass → AreClosing journal passes → ⊥ }
{}

/// Closed replicas of distinct names, whose chains agree, are a state of a world in which their own chains are the arrivals, and those
/// are what their journals list as their own. Where chains are as long, logs and bills are equal. Two replicas agree just where the
/// comparison of their chains finds no clash, and the least origin at which any two clash is the one that comparing all pairs finds.
pub fn closed_laws()
    ensures world { (vs : List ReplicaView) → AreClosed vs → IsWorld (world_of vs) }
    ensures shows { (vs : List ReplicaView) → AreClosed vs → All (λ v. Shows (world_of vs) v.name v) vs }
    ensures state { (plan : AccountPlan) (cs : List ClosedView) → AreClosed (replicas_of cs) → All (λ c. IsHistory plan c.replica.name c.replica c.journal) cs → IsCoupled (world_of (replicas_of cs)) (record { plan = plan; replicas = replicas_of cs; sent = [] }) }
    ensures arrivals { (plan : AccountPlan) (cs : List ClosedView) → AllPairs (λ v w. v.name ≢ w.name) (replicas_of cs) → All (λ c. IsHistory plan c.replica.name c.replica c.journal) cs → All (λ c. (world_of (replicas_of cs)).arrivals c.replica.name ≡ own c.replica.name c.journal) cs }
    ensures logs { AgreeInLogs }
    ensures bills { AgreeInBills }
    ensures clash { (vs : List ReplicaView) → All IsReplica vs → IsClash vs (clash_all vs) }
    ensures test { (v w : ReplicaView) → IsReplica w → (clash_key (differ_at same_report) v.chains w.chains ≡ None) ↔ AgreeAll v w }
{}

/// What a journal lists, in words of its entries. Of a take those reports are new that are neither held at its start nor at an earlier
/// place of it, and they go to the end of the own list; an absorb goes to the ends of the other origins' lists. All reports are those of
/// takes and those of other origins' lists.
pub fn list_laws()
    ensures fresh { (log rs : List PacketReport) (r : PacketReport) → fresh_of log (rs ++ r ∷ []) ≡ fresh_of log rs ++ cond (has report_cmp log r || has report_cmp rs r) [] (r ∷ []) }
    ensures own_took { (name : ℕ) (journal : List EntryView) (pass : ℕ) (reports : List PacketReport) (fresh : ℕ) (stop : Option LogFault) → own name (journal ++ Took pass reports fresh stop ∷ []) ≡ own name journal ++ fresh_of (after name journal) reports }
    ensures own_absorbed { (name : ℕ) (journal : List EntryView) (pass : ℕ) (runs : List RunView) (result : Result ℕ AbsorbFault) → own name (journal ++ Absorbed pass runs result ∷ []) ≡ own name journal }
    ensures part_took { (name : ℕ) (journal : List EntryView) (pass : ℕ) (reports : List PacketReport) (fresh : ℕ) (stop : Option LogFault) (o : ℕ) → part name (journal ++ Took pass reports fresh stop ∷ []) o ≡ part name journal o }
    ensures part_absorbed { AbsorbAddsToParts }
    ensures after { LogHasTakesAndParts }
    ensures each { (plan : AccountPlan) (name : ℕ) (before rest : List EntryView) (e : EntryView) → AreRight plan name (before ++ e ∷ rest) → IsRight plan name (lists name before) e }
{}
