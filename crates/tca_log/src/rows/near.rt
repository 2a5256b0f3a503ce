//! Looking for a row near a place.
ghost use Rattle.std.specs.Prelude.{◌≡◌, IfSome, IsTrue, take};
ghost use Rattle.std.specs.List.{AllByRecursion};
ghost use Rattle.std.specs.List.Sorted.{IsStrictlySortedBy};
ghost use Rattle.std.specs.declared.cmp.Ordering.TheVariants.{Less};
ghost use Rattle.tca_join.specs.Sets.{has};

use std::cmp::Ordering;

// Whether all rows before a place come before this one, as the last of them tells.
fn is_past<K: Ord>(rows: &[K], at: usize, key: &K) -> bool
    requires { IsStrictlySortedBy K.cmp rows.now }
    ensures { IsTrue result → AllByRecursion (λ x. K.cmp x key.now ≡ Less) (take at rows.now) }
{
    if at == 0 {
        return true;
    }
    match rows.get(at - 1) {
        Some(before) => before.cmp(key).is_lt(),
        None => false,
    }
}

/// Whether a row ties with this one, where the row at a place and the one before it tell.
pub(crate) fn told_at<K: Ord>(rows: &[K], at: usize, key: &K) -> Option<bool>
    requires { IsStrictlySortedBy K.cmp rows.now }
    ensures { IfSome result (λ ties. ties ≡ has K.cmp rows.now key.now) }
{
    if let Some(next) = rows.get(at) {
        match key.cmp(next) {
            Ordering::Equal => return Some(true),
            Ordering::Greater => return None,
            Ordering::Less => {}
        }
    }
    if is_past(rows, at, key) {
        return Some(false);
    }
    None
}
