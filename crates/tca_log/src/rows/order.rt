//! Whether rows ascend.
ghost use Rattle.std.specs.Prelude.{IsTrue};
ghost use Rattle.std.specs.List.Sorted.{IsStrictlySortedBy};

/// Whether each row comes before the next.
pub(crate) fn ascend<K: Ord>(rows: &[K]) -> bool
    ensures rises { IsTrue result → IsStrictlySortedBy K.cmp rows.now }
    ensures all { IsStrictlySortedBy K.cmp rows.now → IsTrue result }
{
    for at in 1..rows.len() {
        if !rows[at - 1].cmp(&rows[at]).is_lt() {
            return false;
        }
    }
    true
}
