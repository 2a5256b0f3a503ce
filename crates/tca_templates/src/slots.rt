//! The templates that are known, each in a slot of its own, in the order in which they were first seen.
//!
//! A withdrawal leaves its slot empty, so that nothing is moved, and its key without a place. The empty slots and these keys
//! are taken away together, when a new template comes and they are as many as the templates, and 64 at least. So what a
//! withdrawal and a definition cost on average is a few searches of trees of keys, whichever keys a stranger chooses.
//!
//! For each domain and kind the IDs are listed that were defined so, one more with each definition. A withdrawal of all
//! goes over those that were listed since the last one. So each definition is gone over once, whatever else is known.
//! Where the lists have twice as many IDs as there are templates, and 64 at least, each template is listed once, anew.
//!
//! While a message is read that may be refused, each change notes what stood in its slot before, and no key is taken away. So
//! a refusal is undone without memory, from the last change to the first. A list that a template comes back to is gone over
//! once more from its start.
ghost use Rattle.std.specs.Prelude.{◌≡◌, ◌≢◌, ◌+◌, ◌<◌, ◌≤◌, ◌^◌, ℕ, Bool, false, Option, Some, None, slice_get, [], length, filter, if◌then◌else◌, true, set, get_or, OnOk, OnErr, IfOk, IfSome, vec_len, vec_capacity};
ghost use Rattle.std.specs.Option.{is_some, option_map};
ghost use Rattle.std.specs.Map.{lookup};
ghost use Rattle.tca_templates.specs.declared.template.Template.{Template};
ghost use Rattle.tca_templates.specs.Templates.{Key, known, define, withdraw, withdraw_all, same_key};
ghost use Rattle.tca_templates.specs.Fields.{template_of, templates_of};
ghost use Rattle.tca_templates.specs.inside.Slotted.{filled, place_of, noted, held, is_entered, same_kind, IsApart, IsSlotted, IsAhead, IsAmong, IsListed};

use crate::ids::Ids;
use crate::template::Template;
use std::alloc::{AllocError, Global};
use std::collections::BTreeMap;
use std::marker::Model;
use std::mem;

// The fewest empty slots that are taken away together.
const FEWEST_EMPTY: usize = 64;

// The fewest listed IDs of which all that aren't needed are taken away together.
const FEWEST_LISTED: usize = 64;

// A template under its observation domain and ID; `None` where it was withdrawn.
pub(crate) type Slot = Option<((u32, u16), Template)>;

// A step back: a slot's place, and what stood there.
type Step = (usize, Slot);

// The place of each domain and ID; a key whose template was withdrawn may stand there without one.
type Places = BTreeMap<(u32, u16), Option<usize>>;

// The IDs by domain and kind.
type Kinds = BTreeMap<(u32, bool), Ids>;

// The templates of a session by observation domain and ID, in the order in which they were first seen.
#[derive(Drop)]
pub(crate) struct Slots {
    /// The templates, and empty slots among them.
    slots: Vec<Slot>,
    /// In which slot the template of a domain and ID is.
    places: Places,
    /// The IDs of all templates of a domain and kind; others may be there too.
    kinds: Kinds,
    /// How many IDs are listed in all.
    listed: usize,
    /// The way back to the slots before a message that may be refused, while it is read. The map has the key of each step.
    steps: Option<Vec<Step>>,
    /// How many slots aren't empty.
    count: usize,
}

impl Model for Slots {
    ghost use Rattle.tca_templates.specs.Fields.{SlotsView};
    ghost use Rattle.std.specs.Option.{option_map};
    ghost use Rattle.tca_templates.specs.inside.Slotted.{filled, before_of, IsKept, IsCovered};

    ghost Value = { SlotsView };

    ghost view = { λ s. record { known = filled s.slots.items; before = before_of (option_map (λ l. l.items) s.steps) s.slots.items } };

    ghost invariant = { λ s. IsKept s.slots.items s.places.entries s.count (option_map (λ l. l.items) s.steps)
        × IsCovered s.slots.items s.kinds.entries (option_map (λ l. l.items) s.steps) };
}

// The place of a domain and ID.
fn place_in(places: &Places, key: (u32, u16)) -> Option<usize>
    ensures { result ≡ held places.now.entries key }
{
    *places.get(&key)?
}

// Gives a key that stands there a place, or takes its place. It takes no memory.
fn set_place(places: &mut Places, key: (u32, u16), place: Option<usize>)
    requires { is_entered places.old.entries key ≡ true }
    ensures held { (k : Key) → held places.new.entries k ≡ (if same_key key k then place else held places.old.entries k) }
    ensures entered { (k : Key) → is_entered places.old.entries k ≡ true → is_entered places.new.entries k ≡ true }
    ensures as_many { length places.new.entries ≡ length places.old.entries }
{
    if let Some(old) = places.get_mut(&key) {
        *old = place;
    }
}

// Gives a key a place. An `Err` leaves all as it was.
fn enter_place(places: &mut Places, key: (u32, u16), place: usize) -> Result<(), AllocError>
    ensures held { OnOk result ((k : Key) → held places.new.entries k ≡ (if same_key key k then Some place else held places.old.entries k)) }
    ensures entered { OnOk result ((k : Key) → is_entered places.old.entries k ≡ true → is_entered places.new.entries k ≡ true) }
    ensures few { OnOk result (length places.new.entries ≤ length places.old.entries + 1) }
    ensures err { OnErr result (places.new.entries ≡ places.old.entries) }
{
    places.insert(key, Some(place))?;
    Ok(())
}

// The places of the templates in these slots, once the empty ones are taken away.
fn numbered(alloc: Global, slots: &[Slot]) -> Result<Places, AllocError>
    requires { IsApart slots.now }
    ensures { IfOk result (λ places. IsSlotted (filter is_some slots.now) places.entries (length (filled slots.now))) }
{
    let mut places = BTreeMap::new(alloc);
    let mut count = 0;
    for slot in slots {
        if let Some((key, _)) = slot {
            enter_place(&mut places, *key, count)?;
            count += 1;
        }
    }
    Ok(places)
}

// Lists an ID of a domain and kind. An `Err` leaves all as it was.
fn list(alloc: Global, kinds: &mut Kinds, kind: (u32, bool), id: u16) -> Result<(), AllocError>
    ensures ahead { (k : ℕ × Bool) (i : ℕ) → IsAhead (lookup (same_kind k) kinds.old.entries) i → IsAhead (lookup (same_kind k) kinds.new.entries) i }
    ensures among { (k : ℕ × Bool) (i : ℕ) → IsAmong (lookup (same_kind k) kinds.old.entries) i → IsAmong (lookup (same_kind k) kinds.new.entries) i }
    ensures ok { OnOk result (IsAhead (lookup (same_kind kind) kinds.new.entries) id) }
{
    if let Some(ids) = kinds.get_mut(&kind) {
        ids.all.push(id)?;
        return Ok(());
    }
    let mut all = Vec::new(alloc);
    all.push(id)?;
    kinds.insert(kind, Ids { all, from: 0 })?;
    Ok(())
}

// The IDs of all templates in these slots.
fn listed(alloc: Global, slots: &[Slot]) -> Result<Kinds, AllocError>
    ensures { IfOk result (λ kinds. (i : ℕ) (s : Option (Key × Template)) → slice_get slots.now i ≡ Some s → IsListed kinds.entries s) }
{
    let mut kinds = BTreeMap::new(alloc);
    for slot in slots {
        if let Some((key, template)) = slot {
            list(alloc, &mut kinds, (key.0, template.options), key.1)?;
        }
    }
    Ok(kinds)
}

// A withdrawal of all goes over each ID of a domain and kind again.
fn go_back(kinds: &mut Kinds, kind: (u32, bool))
    ensures ahead { (k : ℕ × Bool) (i : ℕ) → IsAhead (lookup (same_kind k) kinds.old.entries) i → IsAhead (lookup (same_kind k) kinds.new.entries) i }
    ensures among { (k : ℕ × Bool) (i : ℕ) → IsAmong (lookup (same_kind k) kinds.old.entries) i → IsAmong (lookup (same_kind k) kinds.new.entries) i }
    ensures all { (i : ℕ) → IsAmong (lookup (same_kind kind) kinds.old.entries) i → IsAhead (lookup (same_kind kind) kinds.new.entries) i }
{
    if let Some(ids) = kinds.get_mut(&kind) {
        ids.from = 0;
    }
}

// A withdrawal of all goes over no ID of a domain and kind that is listed by now.
fn pass_over(kinds: &mut Kinds, kind: (u32, bool))
    ensures others { (k : ℕ × Bool) → same_kind kind k ≡ false → lookup (same_kind k) kinds.new.entries ≡ lookup (same_kind k) kinds.old.entries }
    ensures among { (k : ℕ × Bool) (i : ℕ) → IsAmong (lookup (same_kind k) kinds.old.entries) i → IsAmong (lookup (same_kind k) kinds.new.entries) i }
{
    if let Some(ids) = kinds.get_mut(&kind) {
        ids.from = ids.all.len();
    }
}

// Where the template of a domain and ID is, if it is of this kind.
fn place_of_kind(slots: &[Slot], places: &Places, key: (u32, u16), options: bool) -> Option<usize>
    requires found { (k : Key) → held places.now.entries k ≡ place_of k slots.now }
    requires apart { IsApart slots.now }
    ensures some { IfSome result (λ i. (t : Template) × (slice_get slots.now i ≡ Some (Some (key, t))) × (t.options ≡ options)) }
    ensures none { result ≡ None → (i : ℕ) (t : Template) → slice_get slots.now i ≡ Some (Some (key, t)) → t.options ≢ options }
{
    let place = place_in(places, key)?;
    let (_, template) = slots.get(place)?.as_ref()?;
    if template.options == options {
        Some(place)
    } else {
        None
    }
}

// Makes room for one step more, where steps are noted.
fn make_room(steps: &mut Option<Vec<Step>>) -> Result<(), AllocError>
    ensures steps { option_map (λ l. l.items) steps.new ≡ option_map (λ l. l.items) steps.old }
    ensures free { OnOk result (IfSome steps.new (λ l. vec_len l < vec_capacity l)) }
{
    if let Some(steps) = steps {
        steps.reserve(1)?;
    }
    Ok(())
}

// Notes what stood in a slot, where steps are noted.
fn note(steps: &mut Option<Vec<Step>>, place: usize, slot: Slot)
    requires { IfSome steps.old (λ l. vec_len l < vec_capacity l) }
    ensures { option_map (λ l. l.items) steps.new ≡ noted (option_map (λ l. l.items) steps.old) place slot }
{
    if let Some(steps) = steps {
        // It can't want memory, since there is room.
        let _ = steps.push((place, slot));
    }
}

// Fills or empties a slot, and notes what stood there.
fn put(slots: &mut Vec<Slot>, steps: &mut Option<Vec<Step>>, place: usize, slot: Slot)
    requires place { place < length slots.old.items }
    requires free { IfSome steps.old (λ l. vec_len l < vec_capacity l) }
    ensures slots { slots.new.items ≡ set slots.old.items place slot }
    ensures steps { option_map (λ l. l.items) steps.new ≡ noted (option_map (λ l. l.items) steps.old) place (get_or slots.old.items place None) }
{
    let old = mem::replace(&mut slots[place], slot);
    note(steps, place, old);
}

impl Slots {
    // None is known. It takes no memory.
    pub(crate) fn new(alloc: Global) -> Slots
        ensures { result.known ≡ [] }
    {
        Slots {
            slots: Vec::new(alloc),
            places: BTreeMap::new(alloc),
            kinds: BTreeMap::new(alloc),
            listed: 0,
            steps: None,
            count: 0,
        }
    }

    // How many are known.
    pub(crate) fn len(&self) -> usize
        ensures count { result ≡ length self.now.known }
        ensures small { result < 2 ^ 63 }
    {
        self.count
    }

    // All slots, in order.
    pub(crate) fn as_slice(&self) -> &[Slot]
        ensures { filled result.now ≡ self.now.known }
    {
        &self.slots
    }

    // The template of an ID.
    pub(crate) fn find(&self, domain: u32, id: u16) -> Option<&Template>
        ensures { option_map (λ t. template_of t.now) result ≡ known (domain, id) (templates_of self.now) }
    {
        let place = place_in(&self.places, (domain, id))?;
        match &self.slots[place] {
            Some((_, template)) => Some(template),
            None => None,
        }
    }

    // Defines an ID. A known one keeps its place, and a new one goes last. An `Err` leaves all as it was.
    pub(crate) fn define(
        &mut self,
        alloc: Global,
        domain: u32,
        id: u16,
        template: Template,
    ) -> Result<(), AllocError>
        ensures ok { OnOk result (templates_of self.new ≡ define (domain, id) (template_of template) (templates_of self.old)) }
        ensures err { OnErr result (self.new ≡ self.old) }
        ensures before { self.new.before ≡ self.old.before }
    {
        self.close_up(alloc);
        self.list_anew(alloc)?;
        let key = (domain, id);
        if let Some(place) = place_in(&self.places, key) {
            list(alloc, &mut self.kinds, (domain, template.options), id)?;
            self.listed = self.listed.saturating_add(1);
            make_room(&mut self.steps)?;
            put(
                &mut self.slots,
                &mut self.steps,
                place,
                Some((key, template)),
            );
            return Ok(());
        }
        self.push(alloc, key, template)
    }

    // Puts a new template last.
    fn push(&mut self, alloc: Global, key: (u32, u16), template: Template) -> Result<(), AllocError>
        requires { lookup (same_key key) self.old.known ≡ None }
        ensures ok { OnOk result (templates_of self.new ≡ define key (template_of template) (templates_of self.old)) }
        ensures err { OnErr result (self.new ≡ self.old) }
        ensures before { self.new.before ≡ self.old.before }
    {
        make_room(&mut self.steps)?;
        self.slots.reserve(1)?;
        let place = self.slots.len();
        list(alloc, &mut self.kinds, (key.0, template.options), key.1)?;
        self.listed = self.listed.saturating_add(1);
        enter_place(&mut self.places, key, place)?;
        self.slots.push(Some((key, template)))?;
        note(&mut self.steps, place, None);
        self.count += 1;
        Ok(())
    }

    // Takes the empty slots away where they are many, unless steps are noted. Where memory is wanting, they stay.
    fn close_up(&mut self, alloc: Global)
        ensures { self.new ≡ self.old }
    {
        if self.steps.is_some() {
            return;
        }
        let empty = self.slots.len() - self.count;
        if empty < FEWEST_EMPTY || empty < self.count {
            return;
        }
        let Ok(places) = numbered(alloc, &self.slots) else {
            return;
        };
        self.slots.retain(|slot| slot.is_some());
        self.places = places;
    }

    // Lists each template once where the lists are long, unless steps are noted. An `Err` leaves them.
    fn list_anew(&mut self, alloc: Global) -> Result<(), AllocError>
        ensures { self.new ≡ self.old }
    {
        let count = self.count;
        if self.steps.is_some() || self.listed < FEWEST_LISTED || self.listed / 2 < count {
            return Ok(());
        }
        self.kinds = listed(alloc, &self.slots)?;
        self.listed = count;
        Ok(())
    }

    // Withdraws an ID of whichever kind; nothing happens where it isn't known. It takes memory only where steps are noted.
    pub(crate) fn withdraw(&mut self, domain: u32, id: u16) -> Result<(), AllocError>
        ensures ok { OnOk result (templates_of self.new ≡ withdraw (domain, id) (templates_of self.old)) }
        ensures before { self.new.before ≡ self.old.before }
    {
        make_room(&mut self.steps)?;
        if let Some(place) = place_in(&self.places, (domain, id)) {
            set_place(&mut self.places, (domain, id), None);
            put(&mut self.slots, &mut self.steps, place, None);
            self.count -= 1;
        }
        Ok(())
    }

    // Withdraws all templates of a domain and kind; the others keep their order. It takes memory only where steps are
    // noted, and an `Err` leaves some withdrawn.
    pub(crate) fn withdraw_all(&mut self, domain: u32, options: bool) -> Result<(), AllocError>
        ensures ok { OnOk result (templates_of self.new ≡ withdraw_all domain options (templates_of self.old)) }
        ensures before { self.new.before ≡ self.old.before }
    {
        let kind = (domain, options);
        let Some(ids) = self.kinds.get(&kind) else {
            return Ok(());
        };
        for i in ids.from..ids.all.len() {
            let key = (domain, ids.all[i]);
            if let Some(found) = place_of_kind(&self.slots, &self.places, key, options) {
                make_room(&mut self.steps)?;
                set_place(&mut self.places, key, None);
                put(&mut self.slots, &mut self.steps, found, None);
                self.count -= 1;
            }
        }
        pass_over(&mut self.kinds, kind);
        Ok(())
    }

    // A message begins that may be refused: from here on the steps back are noted.
    pub(crate) fn begin(&mut self, alloc: Global)
        ensures known { self.new.known ≡ self.old.known }
        ensures before { self.new.before ≡ Some self.old.known }
    {
        self.steps = None;
        self.close_up(alloc);
        // Where memory is wanting, the lists stay.
        let _ = self.list_anew(alloc);
        self.steps = Some(Vec::new(alloc));
    }

    // The message was read: what it changed stays, and no steps are noted any more.
    pub(crate) fn keep(&mut self)
        ensures known { self.new.known ≡ self.old.known }
        ensures before { self.new.before ≡ None }
    {
        self.steps = None;
    }

    // The message was refused: all is as it was before. It takes no memory.
    pub(crate) fn put_back(&mut self)
        ensures { IfSome self.old.before (λ before. self.new.known ≡ before) }
    {
        let Some(steps) = self.steps.take() else {
            return;
        };
        let mut steps = steps;
        while let Some((place, slot)) = steps.pop() {
            if let Some((key, _)) = &self.slots[place] {
                set_place(&mut self.places, *key, None);
                self.count -= 1;
            }
            if let Some((key, template)) = &slot {
                set_place(&mut self.places, *key, Some(place));
                self.count += 1;
                go_back(&mut self.kinds, (key.0, template.options));
            }
            self.slots[place] = slot;
        }
    }
}
