//! The keys of a map.
ghost use Rattle.std.specs.Prelude.{◌≡◌};
ghost use Rattle.std.specs.Iterator.{YieldsFirst, item_count};
ghost use Rattle.tca_join.specs.Maps.{keys_of};

use std::marker::Model;

/// The keys of a [`ByKey`](crate::ByKey), ascending. Contracts see those that are left.
#[derive(Drop)]
pub struct Keys<'a, V> {
    rest: &'a [(u32, V)],
}

impl<'a, V> Model for Keys<'a, V> {
    ghost use Rattle.std.specs.Prelude.{List, ℕ};
    ghost use Rattle.tca_join.specs.Maps.{keys_of};

    ghost Value = { List ℕ };

    ghost view = { λ k. keys_of k.rest.now };
}

impl<'a, V> Keys<'a, V> {
    pub(crate) fn new(entries: &'a [(u32, V)]) -> Keys<'a, V>
        ensures { result ≡ keys_of entries.now }
    {
        Keys { rest: entries }
    }
}

impl<'a, V> Iterator for Keys<'a, V> {
    type Item = u32;

    ghost next_gives = { YieldsFirst (λ s. s) };

    ghost remaining = { item_count (λ s. s) };

    fn next(&mut self) -> Option<u32> {
        let (first, rest) = self.rest.split_first()?;
        self.rest = rest;
        Some(first.0)
    }
}
