//! What a difference of two sets comes to, and what the items of a list do.
ghost use Rattle.std.specs.Prelude.{◌≡◌, ℕ, ◌+◌, ◌&&◌, ◌||◌, List, [], length, map, not};
ghost use Rattle.std.specs.List.Sorted.{IsStrictlySortedBy};
ghost use Rattle.tca_join.specs.Sets.{has};
ghost use Rattle.tca_report.specs.report.Reports.{PacketReport, report_cmp};
ghost use Rattle.tca_meters.specs.declared.colour.Colour.{Colour};
ghost use Rattle.tca_accounts.specs.Plans.{AccountPlan};
ghost use Rattle.tca_accounts.specs.declared.tally.Tally.{Tally};
ghost use Rattle.tcatool.specs.Diffed.{both_sets, lone, only_first, only_second, shared};
ghost use Rattle.tcatool.specs.Itemised.{IsTallyOf, billed_octets, billed_packets, item_octets, item_packets, items_in, sums_in};
ghost use Rattle.tcatool.specs.Listed.{AreItemsUnder};
ghost use Rattle.tcatool.specs.declared.item.Item.{Item};

/// What only the first of two sets has, what only the second has and what both have are, without overlap, their union; a line goes out
/// for each report of the first two kinds; and none goes out exactly where the sets are equal.
pub fn a_difference_is_a_partition()
    ensures union { (a b : List PacketReport) (r : PacketReport) → has report_cmp (both_sets a b) r ≡ (has report_cmp a r || has report_cmp b r) }
    ensures first { (a b : List PacketReport) (r : PacketReport) → has report_cmp (only_first a b) r ≡ (has report_cmp a r && not (has report_cmp b r)) }
    ensures second { (a b : List PacketReport) (r : PacketReport) → has report_cmp (only_second a b) r ≡ (has report_cmp b r && not (has report_cmp a r)) }
    ensures both { (a b : List PacketReport) (r : PacketReport) → has report_cmp (shared a b) r ≡ (has report_cmp a r && has report_cmp b r) }
    ensures counts { (a b : List PacketReport) → length (only_first a b) + (length (only_second a b) + length (shared a b)) ≡ length (both_sets a b) }
    ensures lines { (a b : List PacketReport) → length (lone a b) ≡ length (only_first a b) + length (only_second a b) }
    ensures equal { (a b : List PacketReport) → IsStrictlySortedBy report_cmp a → IsStrictlySortedBy report_cmp b → lone a b ≡ [] → a ≡ b }
    ensures no_line { (a : List PacketReport) → IsStrictlySortedBy report_cmp a → lone a a ≡ [] }
{}

/// The items of a list add up to the bill. There is one for each report of the set, in order; and of each account of the bill of that set
/// under the same plan, for each colour, the octets and the number of its items are those of the bill, in all and in each period, where
/// a period that has no span in the bill has none of either.
pub fn items_add_up_to_the_bill()
    ensures lines { (plan : AccountPlan) (rs : List PacketReport) (items : List Item) → AreItemsUnder plan rs items → map (λ i. i.report) items ≡ rs }
    ensures octets { (plan : AccountPlan) (rs : List PacketReport) (items : List Item) → AreItemsUnder plan rs items
        → (n : ℕ) (t : Tally) → IsTallyOf plan rs n t
        → (c : Colour) → item_octets n c items ≡ billed_octets c t.total }
    ensures packets { (plan : AccountPlan) (rs : List PacketReport) (items : List Item) → AreItemsUnder plan rs items
        → (n : ℕ) (t : Tally) → IsTallyOf plan rs n t
        → (c : Colour) → item_packets n c items ≡ billed_packets c t.total }
    ensures period_octets { (plan : AccountPlan) (rs : List PacketReport) (items : List Item) → AreItemsUnder plan rs items
        → (n : ℕ) (t : Tally) → IsTallyOf plan rs n t
        → (c : Colour) (index : ℕ) → item_octets n c (items_in plan.period index items) ≡ billed_octets c (sums_in index t.spans) }
    ensures period_packets { (plan : AccountPlan) (rs : List PacketReport) (items : List Item) → AreItemsUnder plan rs items
        → (n : ℕ) (t : Tally) → IsTallyOf plan rs n t
        → (c : Colour) (index : ℕ) → item_packets n c (items_in plan.period index items) ≡ billed_packets c (sums_in index t.spans) }
{}
