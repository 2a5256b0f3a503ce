//! What the words of sets, chains and maps come to, as contracts.
ghost use Rattle.std.specs.declared.cmp.Ordering.{Ordering};
ghost use Rattle.tca_join.specs.Chains.{ClashIsFirst, CompatibleIsPrefix, TakesLonger, KeepsLonger};
ghost use Rattle.tca_join.specs.Maps.{IsOnlyMap, SetsOneKey, JoinsKeyByKey, CompatibleAtEach, ClashIsLeast, FitsAtEach, FullAtSome};
ghost use Rattle.tca_join.specs.SetLaws.{IsExact, IsASet, IsOnly, UnionCommutes, UnionAssociates, UnionAgain, UnionAbove, UnionLeast};

/// The laws of finite sets as strictly rising lists, as a contract, for each total order that ties no two members: the
/// list is the only one with its members, and the union is the least upper bound.
pub fn set_laws<T>()
    ensures ordered { (R : T → T → Ordering) → IsExact R → IsASet R }
    ensures only { (R : T → T → Ordering) → IsExact R → IsOnly R }
    ensures union_commutes { (R : T → T → Ordering) → IsExact R → UnionCommutes R }
    ensures union_associates { (R : T → T → Ordering) → IsExact R → UnionAssociates R }
    ensures union_again { (R : T → T → Ordering) → IsExact R → UnionAgain R }
    ensures union_above { (R : T → T → Ordering) → IsExact R → UnionAbove R }
    ensures union_least { (R : T → T → Ordering) → IsExact R → UnionLeast R }
{}

/// What the words of a chain's contracts come to, as a contract: two chains clash at the first index at which both
/// have an item and these differ, else one begins with the other, and their join is the longer.
pub fn chain_join_laws<T: Eq>()
    ensures clash { ClashIsFirst T.eq }
    ensures compatible { CompatibleIsPrefix T.eq }
    ensures takes { TakesLonger T.eq }
    ensures keeps { KeepsLonger T.eq }
{}

/// What the words of a map's contracts come to, as a contract: what is at each key says which map it is; setting
/// changes one key; a join is made key by key; and two maps clash at the least key at which their values do.
pub fn map_join_laws<V>()
    ensures only { IsOnlyMap V }
    ensures sets { SetsOneKey V }
    ensures joins { JoinsKeyByKey V }
    ensures compatible { CompatibleAtEach V }
    ensures clash { ClashIsLeast V }
    ensures fits { FitsAtEach V }
    ensures full { FullAtSome V }
{}
