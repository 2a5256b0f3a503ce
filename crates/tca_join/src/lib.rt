//! Finite sets, and values that join.
//!
//! A [`Join`] is a type of values of which some two have a least upper bound: `join_from` makes a value that bound, or
//! answers why there is none and changes nothing. [`MaxOf`] is a count of which the greater is kept; a [`Chain`] is a
//! list of which the longer is kept, where one begins with the other; [`ByKey`] joins values under numbers key by key.
//! A join takes time and memory in proportion to the lengths of the two values.
//!
//! `specs/Sets.antt` says what a finite set is for all crates above: the one list that has each member once and rises
//! strictly. [`set_laws`] states the laws of such lists.
//!
//! - `join`: what a join is; `fault`: why two values were not joined;
//! - `count`, `chain`, `by_key`: the types of values that join; `keys`: the keys of a map;
//! - `items`: a list that several owners share; `store`: where the items of a chain stand;
//! - `laws`: what the words of sets, chains and maps come to.
#![tactic(auto)]

mod by_key;
mod chain;
mod count;
mod fault;
mod items;
mod join;
mod keys;
mod laws;
mod store;

pub use by_key::ByKey;
pub use chain::Chain;
pub use count::MaxOf;
pub use fault::JoinFault;
pub use items::Items;
pub use join::{Join, join_laws};
pub use keys::Keys;
pub use laws::{chain_join_laws, map_join_laws, set_laws};
