//! How a call is written down.
ghost use Rattle.std.specs.Prelude.{◌≡◌, ◌+◌, ◌<◌, ◌≤◌, [], ◌∷◌, ◌++◌, OnOk, length, vec_capacity, vec_len};
ghost use Rattle.tca_ingest.specs.EntryViews.{entry_view, entry_views};

use crate::copies::EntryCopies;
use crate::entry::{Entry, Receipt};
use crate::side::Side;
use std::alloc::AllocError;
use std::sync::ledger::{Book, Share};

/// Makes room for one entry more, in the journal, in the list of a pass and in the list of its places.
pub(crate) fn reserve(
    journal: &mut Vec<Entry>,
    calls: &mut Vec<Entry>,
    places: &mut Vec<u64>,
) -> Result<(), AllocError>
    ensures journal { journal.new.items ≡ journal.old.items }
    ensures calls { calls.new.items ≡ calls.old.items }
    ensures places { places.new.items ≡ places.old.items }
    ensures room { OnOk result ((vec_len journal.new < vec_capacity journal.new) × (vec_len calls.new < vec_capacity calls.new) × (vec_len places.new < vec_capacity places.new)) }
{
    journal.reserve(1)?;
    calls.reserve(1)?;
    places.reserve(1)
}

/// Writes an entry down in the journal and in the list of its pass, and its place in the journal in the list of places, all of which
/// have room, and answers its receipt. The ledger counts it in both, so that the list is never longer than the journal.
pub(crate) fn note<L: Side>(
    journal: &mut Vec<Entry>,
    book: &mut Book<L>,
    calls: &mut Vec<Entry>,
    places: &mut Vec<u64>,
    share: &mut Share<L>,
    entry: EntryCopies,
) -> Receipt
    requires room { (vec_len journal.old < vec_capacity journal.old) × (vec_len calls.old < vec_capacity calls.old) × (vec_len places.old < vec_capacity places.old) }
    requires counted { (book.old.total ≡ length journal.old.items) × (share.old.amount ≡ length calls.old.items) × (share.old.parts ≡ 1) }
    ensures journal { entry_views journal.new.items ≡ entry_views journal.old.items ++ entry ∷ [] }
    ensures calls { entry_views calls.new.items ≡ entry_views calls.old.items ++ entry ∷ [] }
    ensures places { places.new.items ≡ places.old.items ++ length journal.old.items ∷ [] }
    ensures book { book.new.total ≡ length journal.new.items }
    ensures share { (share.new.amount ≡ length calls.new.items) × (share.new.parts ≡ 1) }
    ensures grown { length calls.new.items ≡ length calls.old.items + 1 }
    ensures entry { entry_view result.entry ≡ entry }
    ensures front { result.front ≡ length (entry_views journal.new.items) }
    ensures within { length (entry_views calls.new.items) ≤ result.front }
{
    book.add(share, 1);
    book.audit(share);
    let EntryCopies {
        journal: first,
        pass,
        receipt,
    } = entry;
    places.push_reserved(journal.len() as u64);
    journal.push_reserved(first);
    calls.push_reserved(pass);
    Receipt {
        front: journal.len() as u64,
        entry: receipt,
    }
}
