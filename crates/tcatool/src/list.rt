//! The command `list`.
ghost use Rattle.std.specs.Prelude.{◌≡◌, ◌<◌, ◌^◌, None, Some, OnOk, IfOk, IfErr, length};
ghost use Rattle.tca_program.specs.Devices.{device};
ghost use Rattle.tca_program.specs.Unions.{views_of};
ghost use Rattle.tcatool.specs.Listed.{IsListDone, IsListRefused, IsListed, IsListingRefused, text_given};

use crate::item::{Item, items_of};
use crate::row::put_rows;
use crate::sharing::items_under;
use std::alloc::Global;
use tca_accounts::Plan;
use tca_program::{RunFault, unite};
use tca_report::{Input, Write};

const HEADER: &str = "time,domain,session,place,octets,dscp,interface,state,account,colour\n";

// The items of the inputs' union.
fn items_alone(alloc: Global, inputs: &[Input]) -> Result<Vec<Item>, RunFault>
    requires { length inputs.now < 2 ^ 32 }
    ensures listed { IfOk result (λ items. IsListed None (views_of inputs.now) None items.items) }
    ensures refused { IfErr result (IsListingRefused None (views_of inputs.now)) }
{
    let (log, _notes) = unite(alloc, inputs)?;
    let items = items_of(alloc, &log)?;
    Ok(items)
}

// A plan, and the items of the inputs' union under it.
fn items_planned(
    alloc: Global,
    plan: &[u8],
    inputs: &[Input],
) -> Result<(Plan, Vec<Item>), RunFault>
    requires { length inputs.now < 2 ^ 32 }
    ensures listed { IfOk result (λ x. IsListed (Some plan.now) (views_of inputs.now) (Some x.0) x.1.items) }
    ensures refused { IfErr result (IsListingRefused (Some plan.now) (views_of inputs.now)) }
{
    let plan = Plan::from_text(alloc, plan)?;
    let (log, _notes) = unite(alloc, inputs)?;
    let items = items_under(alloc, &plan, &log)?;
    Ok((plan, items))
}

// The plan, where one is given, and the items of the inputs' union.
fn union_items(
    alloc: Global,
    plan: Option<&[u8]>,
    inputs: &[Input],
) -> Result<(Option<Plan>, Vec<Item>), RunFault>
    requires { length inputs.now < 2 ^ 32 }
    ensures listed { IfOk result (λ x. IsListed (text_given plan.entry) (views_of inputs.now) x.0 x.1.items) }
    ensures refused { IfErr result (IsListingRefused (text_given plan.entry) (views_of inputs.now)) }
{
    match plan {
        Some(text) => {
            let (plan, items) = items_planned(alloc, text, inputs)?;
            Ok((Some(plan), items))
        }
        None => {
            let items = items_alone(alloc, inputs)?;
            Ok((None, items))
        }
    }
}

/// Writes a line for each report of the inputs' union, in order: the report, whether it is settled, and under a plan the account that
/// owns it and the colour under which the account counts it, where it is settled and an account does.
///
/// The plan is judged first, then the inputs in order. All memory is taken before the first write. A refusal but that of a write leaves
/// `out` as it was; that of a write says that only a part of the lines went out.
pub fn run_list<W: Write>(
    alloc: Global,
    plan: Option<&[u8]>,
    inputs: &[Input],
    out: &mut W,
) -> Result<(), RunFault>
    requires { length inputs.now < 2 ^ 32 }
    ensures done { OnOk result (IsListDone (text_given plan.entry) (views_of inputs.now)
        (device W.written W.failures out.old) (device W.written W.failures out.new)) }
    ensures refused { IfErr result (IsListRefused (text_given plan.entry) (views_of inputs.now)
        (device W.written W.failures out.old) (device W.written W.failures out.new)) }
{
    let (plan, items) = union_items(alloc, plan, inputs)?;
    put_rows(HEADER, &plan, &items, out)?;
    Ok(())
}
