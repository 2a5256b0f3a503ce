//! Counts, chains and maps, and each growth refused in turn by a small heap.
ghost use Rattle.std.specs.Prelude.{◌≡◌, true};

use linked_list_allocator::LocalHeap;
use std::alloc::{AllocError, Allocator, Global};
use tca_join::{ByKey, Chain, Items, Join, JoinFault, MaxOf};

// What a step of the sweeps below was refused memory for.
#[derive(Clone, Copy, PartialEq, Eq)]
enum Step {
    Reserve,
    Set,
    Copy,
    Join,
    Done,
    // What was refused is not as it was, or what was done is not as it should be.
    Wrong,
}

fn add<A: Allocator + Clone>(chain: &mut Chain<u32, A>, item: u32) -> Result<(), AllocError> {
    if chain.len() < 4_194_304 {
        chain.reserve()?;
        chain.push(item);
    }
    Ok(())
}

fn chain_of<A: Allocator + Clone>(alloc: A, items: &[u32]) -> Result<Chain<u32, A>, AllocError> {
    let mut chain = Chain::new(alloc);
    for item in items {
        add(&mut chain, *item)?;
    }
    Ok(chain)
}

// Through the trait alone.
fn joined<J: Join>(first: &J, second: &J) -> Result<J, JoinFault> {
    let mut value = first.copy()?;
    value.join_from(second)?;
    Ok(value)
}

// How many items a key's chain has.
fn length_at<A: Allocator + Clone>(map: &ByKey<Chain<u32, A>, A>, key: u32) -> u32 {
    match map.get(key) {
        Some(chain) => chain.len(),
        None => 0,
    }
}

const FAULTS: [(JoinFault, u8, &'static str); 3] = [
    (
        JoinFault::Clash { key: 70 },
        1,
        "the values have no join: they clash at 70",
    ),
    (JoinFault::Full, 2, "the join is above its limit"),
    (JoinFault::Memory, 3, "out of memory"),
];

fn says(alloc: Global, fault: JoinFault, text: &str) -> bool {
    match format!(in alloc; "{fault}") {
        Ok(said) => said.as_str() == text,
        Err(_) => false,
    }
}

#[test]
fn faults_have_their_numbers_and_texts(rt: HostRuntime) {
    for (fault, number, text) in FAULTS {
        assert!(rt; fault.number() == number && says(rt.alloc(), fault, text));
    }
}

fn keeps_the_greater(first: u32, second: u32, greater: u32) -> bool {
    let (first, second) = (MaxOf(first), MaxOf(second));
    first.refusal(&second) == None && joined(&first, &second) == Ok(MaxOf(greater))
}

#[test]
fn the_greater_count_is_kept(rt: HostRuntime) {
    assert!(rt; keeps_the_greater(3, 5, 5));
    assert!(rt; keeps_the_greater(5, 3, 5));
    assert!(rt; keeps_the_greater(4, 4, 4));
}

fn joins_to(first: &Chain<u32>, second: &Chain<u32>, items: &[u32]) -> bool {
    match joined(first, second) {
        Ok(chain) => chain.items() == items,
        Err(_) => false,
    }
}

fn keeps_the_longer(alloc: Global) -> bool {
    let Ok(short) = chain_of(alloc, &[4, 6]) else {
        return false;
    };
    let Ok(long) = chain_of(alloc, &[4, 6, 4]) else {
        return false;
    };
    let all = [4, 6, 4];
    let shown = (long.len(), long.item(1), long.item(3)) == (3, Some(6), None);
    shown && joins_to(&short, &long, &all) && joins_to(&long, &short, &all)
}

// Whether a chain clashes there with another, by both calls.
fn clashes_at(chain: &mut Chain<u32>, other: &Chain<u32>, key: u32) -> bool {
    let clash = JoinFault::Clash { key };
    chain.refusal(other) == Some(clash) && chain.join_from(other) == Err(clash)
}

fn refuses_another(alloc: Global) -> bool {
    let Ok(long) = chain_of(alloc, &[4, 6, 4]) else {
        return false;
    };
    let Ok(mut other) = chain_of(alloc, &[4, 7, 5]) else {
        return false;
    };
    clashes_at(&mut other, &long, 1) && other.items() == [4, 7, 5].as_slice()
}

#[test]
fn the_longer_chain_is_kept(rt: HostRuntime) {
    assert!(rt; keeps_the_longer(rt.alloc()));
    assert!(rt; refuses_another(rt.alloc()));
}

fn copy_has_room(alloc: Global) -> bool {
    let mut chain: Chain<u32> = Chain::new(alloc);
    let Ok(()) = chain.reserve() else {
        return false;
    };
    let Ok(mut copy) = chain.copy() else {
        return false;
    };
    copy.push(8);
    copy.items() == [8].as_slice() && chain.len() == 0
}

#[test]
fn a_copy_has_the_room_of_its_source(rt: HostRuntime) {
    assert!(rt; copy_has_room(rt.alloc()));
}

fn set_chain<A: Allocator + Copy>(
    alloc: A,
    map: &mut ByKey<Chain<u32, A>, A>,
    key: u32,
    items: &[u32],
) -> Result<(), AllocError> {
    map.set(key, chain_of(alloc, items)?)
}

// A map of chains of these items, set in this order.
fn map_of<A: Allocator + Copy>(
    alloc: A,
    chains: &[(u32, &[u32])],
) -> Result<ByKey<Chain<u32, A>, A>, AllocError> {
    let mut map = ByKey::new(alloc);
    for (key, items) in chains {
        set_chain(alloc, &mut map, *key, *items)?;
    }
    Ok(map)
}

// Whether a map has just these chains, by rising keys.
fn has_chains<A: Allocator + Clone>(
    map: &ByKey<Chain<u32, A>, A>,
    chains: &[(u32, &[u32])],
) -> bool {
    let mut left = chains.iter();
    for entry in map.entries() {
        match left.next() {
            Some((key, items)) => {
                if entry.0 != *key || entry.1.items() != *items {
                    return false;
                }
            }
            None => return false,
        }
    }
    left.next().is_none()
}

fn keys_are(map: &ByKey<Chain<u32>>, keys: &[u32]) -> bool {
    let mut found = map.keys();
    for key in keys {
        if found.next() != Some(*key) {
            return false;
        }
    }
    found.next().is_none()
}

fn joins_by_key(all: &ByKey<Chain<u32>>) -> bool {
    let chains: [(u32, &[u32]); 3] = [(4, &[5, 5]), (6, &[7]), (9, &[1, 3])];
    has_chains(all, &chains) && keys_are(all, &[4, 6, 9]) && all.get(5).is_none()
}

fn join_by_key(first: &ByKey<Chain<u32>>, second: &ByKey<Chain<u32>>) -> bool {
    match joined(first, second) {
        Ok(all) => joins_by_key(&all),
        Err(_) => false,
    }
}

fn chains_join(alloc: Global) -> bool {
    let Ok(first) = map_of(alloc, &[(9, &[1]), (4, &[5, 5])]) else {
        return false;
    };
    let Ok(second) = map_of(alloc, &[(9, &[2]), (6, &[7]), (9, &[1, 3])]) else {
        return false;
    };
    join_by_key(&first, &second)
}

#[test]
fn maps_of_chains_join_key_by_key(rt: HostRuntime) {
    assert!(rt; chains_join(rt.alloc()));
}

// Whether a map clashes there with another, and is as before.
fn is_refused_at(
    map: &mut ByKey<Chain<u32>>,
    other: &ByKey<Chain<u32>>,
    key: u32,
    before: &[(u32, &[u32])],
) -> bool {
    map.join_from(other) == Err(JoinFault::Clash { key }) && has_chains(map, before)
}

fn replace(alloc: Global, map: &mut ByKey<Chain<u32>>, key: u32, items: &[u32]) -> bool {
    let Ok(chain) = chain_of(alloc, items) else {
        return false;
    };
    match map.get_mut(key) {
        Some(place) => {
            *place = chain;
            true
        }
        None => false,
    }
}

// Whether the clash at 1 is named, and the one at 5 where there is none at 1.
fn names_the_least(
    alloc: Global,
    first: &mut ByKey<Chain<u32>>,
    second: &ByKey<Chain<u32>>,
) -> bool {
    let at_one = is_refused_at(
        first,
        second,
        1,
        &[(1, &[2, 1]), (3, &[2, 1]), (5, &[1]), (8, &[2, 1])],
    );
    let replaced = replace(alloc, first, 1, &[2, 2, 6]) && first.get_mut(2).is_none();
    let at_five = is_refused_at(
        first,
        second,
        5,
        &[(1, &[2, 2, 6]), (3, &[2, 1]), (5, &[1]), (8, &[2, 1])],
    );
    at_one && replaced && at_five
}

fn clashes_are_named(alloc: Global) -> bool {
    let Ok(mut first) = map_of(
        alloc,
        &[(8, &[2, 1]), (3, &[2, 1]), (1, &[2, 1]), (5, &[1])],
    ) else {
        return false;
    };
    let Ok(second) = map_of(
        alloc,
        &[(8, &[2, 1]), (3, &[2, 1]), (1, &[2, 2]), (5, &[2])],
    ) else {
        return false;
    };
    names_the_least(alloc, &mut first, &second)
}

#[test]
fn the_least_key_that_clashes_is_named(rt: HostRuntime) {
    assert!(rt; clashes_are_named(rt.alloc()));
}

fn counts_of(alloc: Global, counts: &[(u32, MaxOf)]) -> Result<ByKey<MaxOf>, AllocError> {
    let mut map = ByKey::new(alloc);
    for (key, count) in counts {
        map.set(*key, *count)?;
    }
    Ok(map)
}

fn have_greater_counts(first: &ByKey<MaxOf>, second: &ByKey<MaxOf>) -> bool {
    let wanted = [(1, MaxOf(4)), (2, MaxOf(7)), (300, MaxOf(5))];
    match joined(first, second) {
        Ok(all) => all.entries() == wanted.as_slice(),
        Err(_) => false,
    }
}

fn counts_join(alloc: Global) -> bool {
    let Ok(first) = counts_of(alloc, &[(2, MaxOf(7)), (1, MaxOf(0)), (300, MaxOf(5))]) else {
        return false;
    };
    let Ok(second) = counts_of(alloc, &[(2, MaxOf(3)), (1, MaxOf(4)), (300, MaxOf(5))]) else {
        return false;
    };
    have_greater_counts(&first, &second)
}

#[test]
fn maps_of_counts_join_key_by_key(rt: HostRuntime) {
    assert!(rt; counts_join(rt.alloc()));
}

// Takes all that a heap has left, so that it refuses each growth.
fn exhausted(alloc: Global, heap: &LocalHeap) -> Result<Vec<Vec<u8, &LocalHeap>>, AllocError> {
    let mut taken = Vec::new(alloc);
    for _ in 0..1024 {
        let Ok(block) = Vec::with_capacity(heap, 1) else {
            break;
        };
        taken.push(block)?;
    }
    Ok(taken)
}

// Whether a push takes nothing of the heap, in which a copy has no room.
fn pushes_without_memory(heap: &LocalHeap, chain: &mut Chain<u32, &LocalHeap>) -> bool
    requires { chain.old.room ≡ true }
{
    let used = heap.used();
    if chain.len() == 4_194_304 {
        return false;
    }
    chain.push(9);
    chain.items() == [4, 6, 9].as_slice() && chain.copy().is_err() && heap.used() == used
}

fn pushes_into_room(alloc: Global, heap: &LocalHeap) -> bool {
    let Ok(mut chain) = chain_of(heap, &[4, 6]) else {
        return false;
    };
    let Ok(()) = chain.reserve() else {
        return false;
    };
    let Ok(taken) = exhausted(alloc, heap) else {
        return false;
    };
    pushes_without_memory(heap, &mut chain) && taken.len() > 0
}

fn takes_no_memory(alloc: Global) -> bool {
    match LocalHeap::new(alloc, 1 << 12) {
        Ok(heap) => pushes_into_room(alloc, &heap),
        Err(_) => false,
    }
}

#[test]
fn a_push_into_reserved_room_takes_no_memory(rt: HostRuntime) {
    assert!(rt; takes_no_memory(rt.alloc()));
}

// Adds these at once, where the chain has room for them below its limit.
fn add_all<A: Allocator + Clone>(
    chain: &mut Chain<u32, A>,
    items: &[u32],
) -> Result<(), AllocError> {
    let room = 4_194_304 - chain.len() as usize;
    if items.len() <= room {
        chain.extend(items)?;
    }
    Ok(())
}

// A list that is shared, and a chain of it.
fn chain_of_list<'a>(
    heap: &'a LocalHeap,
    items: &[u32],
) -> Result<(Items<u32, &'a LocalHeap>, Chain<u32, &'a LocalHeap>), AllocError> {
    let list = Items::of(heap, Vec::from_slice(heap, items)?)?;
    if list.len() > 4_194_304 {
        return Err(AllocError);
    }
    let chain = Chain::of(list.share()?);
    Ok((list, chain))
}

// Whether a copy takes nothing of the heap, and what is added to the chain is neither in the copy nor in the list.
fn changes_alone<'a>(
    heap: &'a LocalHeap,
    list: &Items<u32, &'a LocalHeap>,
    chain: &mut Chain<u32, &'a LocalHeap>,
) -> bool {
    let used = heap.used();
    let Ok(copy) = chain.copy() else {
        return false;
    };
    if heap.used() != used || add_all(chain, &[9, 9]).is_err() || add(chain, 7).is_err() {
        return false;
    }
    chain.items() == [4, 6, 9, 9, 7].as_slice()
        && copy.items() == [4, 6].as_slice()
        && list.as_slice() == [4, 6].as_slice()
}

// Whether a chain of a list stays where there is no memory for a list of its own.
fn stays_shared<'a>(heap: &'a LocalHeap, chain: &mut Chain<u32, &'a LocalHeap>) -> bool {
    let used = heap.used();
    chain.reserve().is_err()
        && add_all(chain, &[9]).is_err()
        && chain.items() == [4, 6].as_slice()
        && heap.used() == used
}

fn lists_are_shared(alloc: Global, heap: &LocalHeap) -> bool {
    let Ok((list, mut chain)) = chain_of_list(heap, &[4, 6]) else {
        return false;
    };
    let Ok((_list, mut other)) = chain_of_list(heap, &[4, 6]) else {
        return false;
    };
    if !changes_alone(heap, &list, &mut chain) {
        return false;
    }
    let Ok(taken) = exhausted(alloc, heap) else {
        return false;
    };
    stays_shared(heap, &mut other) && taken.len() > 0
}

fn shares_lists(alloc: Global) -> bool {
    match LocalHeap::new(alloc, 1 << 12) {
        Ok(heap) => lists_are_shared(alloc, &heap),
        Err(_) => false,
    }
}

#[test]
fn a_chain_of_a_shared_list_changes_alone(rt: HostRuntime) {
    assert!(rt; shares_lists(rt.alloc()));
}

// The first of a list that another owner holds, as a list, and all of one that nobody else holds.
fn lists_again(alloc: Global) -> Result<bool, AllocError> {
    let list = Items::of(alloc, Vec::from_slice(alloc, &ITEMS)?)?;
    if list.len() < 2 {
        return Ok(false);
    }
    let first = list.share()?.first(2).into_vec(alloc)?;
    let all = list.into_vec(alloc)?;
    Ok(first.as_slice() == [10, 11].as_slice() && all.as_slice() == ITEMS.as_slice())
}

#[test]
fn a_shared_list_is_a_list_again(rt: HostRuntime) {
    assert!(rt; lists_again(rt.alloc()) == Ok(true));
}

// Whether a list that nobody else holds is a list again in a heap that refuses each growth, and a copy of one that is shared is refused.
fn list_again_without_memory(alloc: Global, heap: &LocalHeap) -> Result<bool, AllocError> {
    let alone = Items::of(heap, Vec::from_slice(heap, &ITEMS)?)?;
    let held = Items::of(heap, Vec::from_slice(heap, &ITEMS)?)?;
    let shared = held.share()?;
    let taken = exhausted(alloc, heap)?;
    let is_refused = shared.into_vec(heap).is_err();
    let list = alone.into_vec(heap)?;
    let are_kept = list.as_slice() == ITEMS.as_slice() && held.as_slice() == ITEMS.as_slice();
    Ok(is_refused && are_kept && taken.len() > 0)
}

fn lists_again_without_memory(alloc: Global) -> Result<bool, AllocError> {
    let heap = LocalHeap::new(alloc, 1 << 12)?;
    list_again_without_memory(alloc, &heap)
}

#[test]
fn a_list_that_nobody_shares_is_a_list_again_without_memory(rt: HostRuntime) {
    assert!(rt; lists_again_without_memory(rt.alloc()) == Ok(true));
}

type SmallMap<'a> = ByKey<Chain<u32, &'a LocalHeap>, &'a LocalHeap>;

// Whether a map clashes at 5 with another, by both calls.
fn clash_is_named<'a>(first: &mut SmallMap<'a>, second: &SmallMap<'a>) -> bool {
    let clash = JoinFault::Clash { key: 5 };
    first.refusal(second) == Some(clash) && first.join_from(second) == Err(clash)
}

// The same in a heap that refuses each growth.
fn clash_is_named_without_memory<'a>(
    alloc: Global,
    heap: &'a LocalHeap,
    first: &mut SmallMap<'a>,
    second: &SmallMap<'a>,
) -> bool {
    let Ok(taken) = exhausted(alloc, heap) else {
        return false;
    };
    let used = heap.used();
    let named = clash_is_named(first, second);
    named && heap.used() == used && taken.len() > 0
}

fn names_clash(alloc: Global, heap: &LocalHeap) -> bool {
    let Ok(mut first) = map_of(heap, &[(3, &[1]), (5, &[7])]) else {
        return false;
    };
    let Ok(second) = map_of(heap, &[(3, &[1, 2]), (5, &[8])]) else {
        return false;
    };
    clash_is_named_without_memory(alloc, heap, &mut first, &second)
}

// Whether the map that joins with another, but for its want of memory, joins with one that is empty.
fn lacks_memory<'a>(heap: &'a LocalHeap, first: &mut SmallMap<'a>, second: &SmallMap<'a>) -> bool {
    let none = ByKey::new(heap);
    first.refusal(second).is_none()
        && first.join_from(second).err() == Some(JoinFault::Memory)
        && first.join_from(&none).is_ok()
}

// The same in a heap that refuses each growth.
fn lacks_only_memory<'a>(
    alloc: Global,
    heap: &'a LocalHeap,
    first: &mut SmallMap<'a>,
    second: &SmallMap<'a>,
) -> bool {
    let Ok(taken) = exhausted(alloc, heap) else {
        return false;
    };
    let used = heap.used();
    let lacks = lacks_memory(heap, first, second);
    lacks && heap.used() == used && taken.len() > 0
}

fn names_memory(alloc: Global, heap: &LocalHeap) -> bool {
    let Ok(mut first) = map_of(heap, &[(3, &[1]), (5, &[7])]) else {
        return false;
    };
    let Ok(second) = map_of(heap, &[(3, &[1, 2]), (5, &[7])]) else {
        return false;
    };
    lacks_only_memory(alloc, heap, &mut first, &second)
}

fn names_what_lacks(alloc: Global) -> bool {
    let Ok(heap) = LocalHeap::new(alloc, 1 << 12) else {
        return false;
    };
    names_clash(alloc, &heap) && names_memory(alloc, &heap)
}

#[test]
fn a_clash_is_named_where_memory_lacks(rt: HostRuntime) {
    assert!(rt; names_what_lacks(rt.alloc()));
}

const ITEMS: [u32; 5] = [10, 11, 12, 13, 14];

// Adds the items until a growth is refused, and answers whether the chain then has just those before that.
fn adds_until_refused(chain: &mut Chain<u32, &LocalHeap>) -> Option<bool> {
    for n in 0..ITEMS.len() {
        if add(chain, ITEMS[n]).is_err() {
            return Some(chain.items() == &ITEMS[..n]);
        }
    }
    None
}

fn seen(step: Step, is_as_before: bool) -> Step {
    if is_as_before { step } else { Step::Wrong }
}

// Goes on until a growth is refused, and sees that what it was refused to is as before.
fn chain_step<'a>(
    chain: &mut Chain<u32, &'a LocalHeap>,
    longer: &Chain<u32, &'a LocalHeap>,
) -> Step {
    if let Some(is_as_before) = adds_until_refused(chain) {
        return seen(Step::Reserve, is_as_before);
    }
    if chain.copy().is_err() {
        return seen(Step::Copy, chain.items() == ITEMS.as_slice());
    }
    match chain.join_from(longer) {
        Ok(()) => seen(Step::Done, chain.items() == longer.items()),
        Err(fault) => seen(
            Step::Join,
            fault == JoinFault::Memory && chain.items() == ITEMS.as_slice(),
        ),
    }
}

fn new_chain_step<'a>(small: &'a LocalHeap, longer: &Chain<u32, &'a LocalHeap>) -> Step {
    let mut chain = Chain::new(small);
    chain_step(&mut chain, longer)
}

// The same in a heap of this many octets for the chain itself, beside one with room for the other.
fn chain_within(alloc: Global, octets: usize) -> Result<Step, AllocError> {
    let small = LocalHeap::new(alloc, octets)?;
    let ample = LocalHeap::new(alloc, 1 << 16)?;
    let longer = chain_of(&ample, &[10, 11, 12, 13, 14, 15, 16, 17, 18, 19])?;
    let step = new_chain_step(&small, &longer);
    Ok(seen(step, small.used() == 0))
}

// Whether one of these heaps ends at that step, if there is memory for them.
fn chain_meets(alloc: Global, wanted: Step) -> Option<bool> {
    for size in 1..64 {
        let Ok(step) = chain_within(alloc, 16 * size) else {
            return None;
        };
        if step == wanted {
            return Some(true);
        }
    }
    Some(false)
}

#[test]
fn a_chain_is_as_before_after_each_refused_growth(rt: HostRuntime) {
    for step in [Step::Reserve, Step::Copy, Step::Join, Step::Done] {
        assert!(rt; chain_meets(rt.alloc(), step) == Some(true));
    }
    assert!(rt; chain_meets(rt.alloc(), Step::Wrong) == Some(false));
}

const KEYS: [u32; 5] = [40, 20, 30, 10, 50];

// The keys once none of these is set, then once each is.
const SET: [&[u32]; 6] = [
    &[],
    &[40],
    &[20, 40],
    &[20, 30, 40],
    &[10, 20, 30, 40],
    &[10, 20, 30, 40, 50],
];

// Whether a map has just these keys, and under each a chain with the key alone.
fn is_as(map: &SmallMap<'_>, keys: &[u32]) -> bool {
    let mut left = keys.iter();
    for entry in map.entries() {
        if left.next() != Some(&entry.0) || entry.1.items() != [entry.0].as_slice() {
            return false;
        }
    }
    left.next().is_none()
}

// Sets a chain under this key. The answer is why that was refused, or what is wrong then.
fn set_one<'a>(
    map: &mut SmallMap<'a>,
    small: &'a LocalHeap,
    key: u32,
    before: &[u32],
) -> Option<Step> {
    let Ok(chain) = chain_of(small, &[key]) else {
        return Some(Step::Reserve);
    };
    match map.set(key, chain) {
        Ok(()) => None,
        Err(_) => Some(seen(Step::Set, is_as(map, before))),
    }
}

fn set_each<'a>(map: &mut SmallMap<'a>, small: &'a LocalHeap) -> Option<Step> {
    for n in 0..KEYS.len() {
        let refused = set_one(map, small, KEYS[n], SET[n]);
        if refused.is_some() {
            return refused;
        }
    }
    None
}

fn has_joined(map: &SmallMap<'_>) -> bool {
    length_at(map, 30) == 6 && length_at(map, 35) == 1 && map.entries().len() == 6
}

// The join with another, once the map was copied, which is as before whatever becomes of the map.
fn join_step<'a>(map: &mut SmallMap<'a>, copy: &SmallMap<'a>, other: &SmallMap<'a>) -> Step {
    match map.join_from(other) {
        Ok(()) => seen(Step::Done, has_joined(map) && is_as(copy, SET[5])),
        Err(fault) => seen(Step::Join, fault == JoinFault::Memory && is_as(map, SET[5])),
    }
}

fn copy_step<'a>(map: &mut SmallMap<'a>, other: &SmallMap<'a>) -> Step {
    match map.copy() {
        Ok(copy) => {
            let is_alike = is_as(&copy, SET[5]);
            seen(join_step(map, &copy, other), is_alike)
        }
        Err(_) => seen(Step::Copy, is_as(map, SET[5])),
    }
}

fn map_step<'a>(small: &'a LocalHeap, other: &SmallMap<'a>) -> Step {
    let mut map = ByKey::new(small);
    match set_each(&mut map, small) {
        Some(step) => step,
        None => copy_step(&mut map, other),
    }
}

fn map_within(alloc: Global, octets: usize) -> Result<Step, AllocError> {
    let small = LocalHeap::new(alloc, octets)?;
    let ample = LocalHeap::new(alloc, 1 << 16)?;
    let other = map_of(&ample, &[(30, &[30, 1, 2, 3, 4, 5]), (35, &[35])])?;
    let step = map_step(&small, &other);
    Ok(seen(step, small.used() == 0))
}

// Whether one of these heaps ends at that step, if there is memory for them.
fn map_meets(alloc: Global, wanted: Step) -> Option<bool> {
    for size in 1..256 {
        let Ok(step) = map_within(alloc, 16 * size) else {
            return None;
        };
        if step == wanted {
            return Some(true);
        }
    }
    Some(false)
}

#[test]
fn a_map_is_as_before_after_each_refused_growth(rt: HostRuntime) {
    for step in [Step::Reserve, Step::Set, Step::Copy, Step::Join, Step::Done] {
        assert!(rt; map_meets(rt.alloc(), step) == Some(true));
    }
    assert!(rt; map_meets(rt.alloc(), Step::Wrong) == Some(false));
}
