//! Two containers of rows as one.
ghost use Rattle.std.specs.Prelude.{◌≡◌, ◌+◌, ◌≤◌, IfOk, length};
ghost use Rattle.tca_log.specs.Rows.Ordered.{AreApart, most_rows, put_each};

use crate::rows::Rows;
use crate::rows::left::Left;
use std::alloc::{AllocError, Allocator};

/// All rows of two containers, of which none ties with one of the other, as one list. It goes through both once.
pub(crate) fn merged<K: Ord + Copy, A: Allocator + Copy>(
    rows: &Rows<K, A>,
    news: &Rows<K, A>,
) -> Result<Rows<K, A>, AllocError>
    requires apart { AreApart K.cmp news.now.rows rows.now.rows }
    requires few { length rows.now.rows + length news.now.rows ≤ most_rows }
    ensures { IfOk result (λ all. all.rows ≡ put_each K.cmp news.now.rows rows.now.rows) }
{
    let alloc = rows.allocator();
    let mut list = Vec::with_capacity(alloc, rows.len() + news.len())?;
    let mut left = Left::new(rows.iter());
    for key in news.iter() {
        left.move_before(key, &mut list)?;
        list.push(*key)?;
    }
    left.move_all(&mut list)?;
    Rows::of_ascending(alloc, list)
}
