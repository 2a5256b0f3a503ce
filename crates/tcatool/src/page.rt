//! The command `page`: a statement as one HTML file that needs nothing else.
//!
//! - `head`: the style, the patterns of the colours, and the counts; `account`: an account's sums; `picture`: its periods as bars;
//! - `column`: where bars stand from left to right; `scale`: the axis of octets; `number`: numbers as people read them; `escape`: texts in HTML.
ghost use Rattle.std.specs.Prelude.{IfErr, OnOk};
ghost use Rattle.tca_program.specs.Devices.{device};
ghost use Rattle.tcatool.specs.Told.{IsAnyText, IsTold, IsUntold};

mod account;
mod column;
mod escape;
mod head;
mod number;
mod picture;
mod scale;

use crate::told::read_figures;
use account::Account;
use head::{Counts, HEAD};
use std::alloc::Global;
use std::fmt;
use tca_figures::Figures;
use tca_program::{RunFault, put_text};
use tca_report::Write;

// A statement as a page.
#[derive(Clone, Copy)]
struct Page<'a>(&'a Figures);

impl fmt::Display for Page<'_> {
    fn fmt<W: fmt::Write>(&self, f: &mut fmt::Formatter<W>) -> fmt::Result {
        let counts = Counts(self.0);
        let period = self.0.period();
        f.write_str(HEAD)?;
        write!(f, "{counts}<main>\n")?;
        for account in self.0.accounts() {
            let account = Account { period, account };
            write!(f, "{account}")?;
        }
        f.write_str("</main>\n</body>\n</html>\n")
    }
}

/// Writes a statement as one HTML file without scripts, fonts and other hosts: the counts; for each account its sums, and a picture of its
/// periods, with a bar for each.
///
/// The statement is judged first, then memory is taken for the page, then it is written. A refusal but that of a write leaves `out` as it
/// was; that of a write says that only a part of the page went out.
pub fn run_page<W: Write>(alloc: Global, statement: &[u8], out: &mut W) -> Result<(), RunFault>
    ensures done { OnOk result (IsTold IsAnyText statement.now
        (device W.written W.failures out.old) (device W.written W.failures out.new)) }
    ensures refused { IfErr result (IsUntold IsAnyText statement.now
        (device W.written W.failures out.old) (device W.written W.failures out.new)) }
{
    let figures = read_figures(alloc, 0, statement)?;
    let page = Page(&figures);
    let text = format!(in alloc; "{page}")?;
    put_text(&text, out)
}
