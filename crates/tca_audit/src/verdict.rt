//! What an audit finds.
ghost use Rattle.tca_audit.specs.Audits.{IsVerdict};

/// What an audit finds of a statement.
#[derive(Clone, Copy, Debug, PartialEq, Eq)]
pub enum Verdict {
    /// Its octets are those that the plan and the reports call for.
    Agrees,
    /// They aren't.
    Differs {
        /// The offset of the first octet that differs, or the length of the shorter text where that goes on in
        /// the longer one.
        at: u64,
    },
}

/// Compares a statement with the text that it has to be, octet by octet. It takes no memory.
pub(crate) fn compared(text: &[u8], statement: &[u8]) -> Verdict
    ensures { IsVerdict text.now statement.now result }
{
    let shared = text.len().min(statement.len());
    for at in 0..shared {
        if text[at] != statement[at] {
            return Verdict::Differs { at: at as u64 };
        }
    }
    if text.len() == statement.len() {
        Verdict::Agrees
    } else {
        Verdict::Differs { at: shared as u64 }
    }
}
