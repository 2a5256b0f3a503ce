//! What inputs held beside reports.
ghost use Rattle.std.specs.Prelude.{◌≡◌, Some};
ghost use Rattle.tca_commands.specs.Noted.{left_out, notes_line};

use std::fmt;
use tca_report::Notes;

// How many records are no reports. Seven counts of 64 bits may need more than 64.
fn left_out(counts: &[u64; 7]) -> u128
    ensures { result ≡ left_out counts.now }
{
    let mut records: u128 = 0;
    for count in counts {
        records += *count as u128;
    }
    records
}

/// The line of an input that held something beside reports: its word, then how many records are no
/// reports, how many messages had a set of an unknown template, and how many sets were skipped. It
/// is empty where there was nothing of these. Printing it takes no memory.
#[derive(Clone, Copy)]
pub struct NotesLine<'a> {
    pub word: &'a str,
    pub notes: Notes,
}

impl fmt::Display for NotesLine<'_> {
    ghost output = { λ l. Some (notes_line l.word.now l.notes) };

    fn fmt<W: fmt::Write>(&self, f: &mut fmt::Formatter<W>) -> fmt::Result {
        let word = self.word;
        let records = left_out(&self.notes.not_reports);
        let unplaced = self.notes.unplaced;
        let skipped = self.notes.skipped;
        if records == 0 && unplaced == 0 && skipped == 0 {
            return Ok(());
        }
        write!(f, "tcacct: {word}: notes {records} {unplaced} {skipped}\n")
    }
}
