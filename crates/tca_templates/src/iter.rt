//! The templates of a session, one after another.
ghost use Rattle.std.specs.Prelude.{◌≡◌, ◌<◌, ◌^◌, length};
ghost use Rattle.std.specs.Iterator.{YieldsFirst, item_count};
ghost use Rattle.tca_templates.specs.Templates.{listed};
ghost use Rattle.tca_templates.specs.Fields.{templates_of};

use crate::slots::{Slot, Slots};
use std::marker::Model;
use std::slice::Iter;

/// The templates in the order in which they were first seen, borrowed from their decoder: of each its
/// observation domain, its ID and whether it is an options template.
#[derive(Drop)]
pub struct TemplatesIter<'a> {
    left: Iter<'a, Slot>,
}

impl<'a> Model for TemplatesIter<'a> {
    ghost use Rattle.std.specs.Prelude.{List, ℕ, Bool};
    ghost use Rattle.tca_templates.specs.Templates.{listed};
    ghost use Rattle.tca_templates.specs.Fields.{entries_of};
    ghost use Rattle.tca_templates.specs.inside.Slotted.{filled};
    ghost use Rattle.std.specs.Slice.Iter.{iter_rest};

    ghost Value = { List (ℕ × ℕ × Bool) };

    ghost view = { λ t. listed (entries_of (filled (iter_rest t.left))) };
}

impl<'a> TemplatesIter<'a> {
    pub(crate) fn new(templates: &'a Slots) -> TemplatesIter<'a>
        ensures list { result ≡ listed (templates_of templates.now) }
        ensures fits { length result < 2 ^ 63 }
    {
        TemplatesIter {
            left: templates.as_slice().iter(),
        }
    }
}

impl<'a> Iterator for TemplatesIter<'a> {
    type Item = (u32, u16, bool);

    ghost next_gives = { YieldsFirst (λ s. s) };

    ghost remaining = { item_count (λ s. s) };

    fn next(&mut self) -> Option<(u32, u16, bool)> {
        while let Some(slot) = self.left.next() {
            if let Some((key, template)) = slot {
                return Some((key.0, key.1, template.options));
            }
        }
        None
    }
}
