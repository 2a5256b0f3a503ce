//! The sets that change which templates are known.
ghost use Rattle.std.specs.Prelude.{◌≡◌, ◌≢◌, ◌<◌, ◌≤◌, ◌+◌, ◌^◌, length, IfOk, IfErr, Err};
ghost use Rattle.std.specs.Result.{IsOk};
ghost use Rattle.tca_join.specs.Results.{Gives};
ghost use Rattle.tca_wire.specs.Walks.{Next, Bad, walk};
ghost use Rattle.tca_templates.specs.Specifiers.{changed, template_front};
ghost use Rattle.tca_templates.specs.Wants.{IsWanted};
ghost use Rattle.tca_templates.specs.Fields.{change_view, templates_of, IsSound};

use crate::fault::DecodeFault;
use crate::slots::Slots;
use crate::specifiers::{Change, read_change, stored};
use std::alloc::Global;

// The most templates of a session, over all domains.
const MOST_TEMPLATES: usize = 4096;

// Does what a template record of a set of this kind says. Memory is wanted only where nothing refuses the record.
fn apply(
    alloc: Global,
    templates: &mut Slots,
    domain: u32,
    options: bool,
    change: Change<'_>,
) -> Result<(), DecodeFault>
    ensures exact { Gives DecodeFault.Memory (λ _. templates_of templates.new) result (changed domain options (templates_of templates.old) (change_view change.entry)) }
    ensures last { result ≡ Err DecodeFault.Memory → IsOk (changed domain options (templates_of templates.old) (change_view change.entry)) }
    ensures before { templates.new.before ≡ templates.old.before }
{
    match change {
        Change::AllGone => templates.withdraw_all(domain, options)?,
        Change::Gone(id) => templates.withdraw(domain, id)?,
        Change::New(id, definition) => {
            let is_new = templates.find(domain, id).is_none();
            if is_new && templates.len() >= MOST_TEMPLATES {
                return Err(DecodeFault::TooMany);
            }
            let template = stored(alloc, options, definition)?;
            templates.define(alloc, domain, id, template)?;
        }
    }
    Ok(())
}

// Does what the template record at the front says, and answers how many octets it has; `at` is where it begins in
// the message.
fn read_template(
    alloc: Global,
    templates: &mut Slots,
    domain: u32,
    options: bool,
    at: u16,
    octets: &[u8],
) -> Result<usize, DecodeFault>
    requires { 4 ≤ length octets.now }
    ensures next { IfOk result (λ n. template_front domain options (templates_of templates.old) at octets.now ≡ Next (templates_of templates.new) n) }
    ensures bad { IfErr result (λ e. e ≢ DecodeFault.Memory → template_front domain options (templates_of templates.old) at octets.now ≡ Bad e) }
    ensures last { result ≡ Err DecodeFault.Memory → IsSound (template_front domain options (templates_of templates.old) at octets.now) }
    ensures within { IfOk result (λ n. (0 < n) × (n ≤ length octets.now)) }
    ensures before { templates.new.before ≡ templates.old.before }
{
    let (change, size) = read_change(options, at, octets)?;
    apply(alloc, templates, domain, options, change)?;
    Ok(size)
}

// Goes over the records of a template set; `at` is where its octets begin in the message. Fewer than four octets
// are padding.
pub(crate) fn read_templates(
    alloc: Global,
    templates: &mut Slots,
    domain: u32,
    options: bool,
    at: u16,
    octets: &[u8],
) -> Result<(), DecodeFault>
    requires { at + length octets.now < 2 ^ 16 }
    ensures exact { Gives DecodeFault.Memory (λ _. templates_of templates.new) result
        (walk (template_front domain options) (templates_of templates.old) at octets.now) }
    ensures wanted { result ≡ Err DecodeFault.Memory → IsWanted (template_front domain options) (templates_of templates.old) at octets.now }
    ensures before { templates.new.before ≡ templates.old.before }
{
    let mut at = at;
    let mut rest = octets;
    while rest.len() >= 4 {
        let size = read_template(alloc, templates, domain, options, at, rest)?;
        at += size as u16;
        let (_, behind) = rest.split_at(size);
        rest = behind;
    }
    Ok(())
}
