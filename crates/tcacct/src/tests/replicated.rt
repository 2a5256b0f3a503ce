//! The bill by replicas and workers: the same as by one thread, for every number of both.
use crate::tests::commands::{
    EXPORT_OF_THREE, FIRST, Full, OPENING, PLAN, Row, SECOND, TEMPLATE_AND_RECORD, THIRD,
    THREE_REPORTS, export, plain,
};
use std::alloc::{AllocError, Global};
use std::io;
use std::sync::Wait;
use std::test::*;
use std::thread::Threads;
use tca_commands::{run_bill, run_bill_plain};
use tca_ingest::NoGate;
use tca_program::{Family, RunFault};
use tca_report::{Host, Input};

// What was billed: how many notes, the export, and the statement.
#[derive(Drop)]
pub(super) struct Written {
    pub(super) notes: usize,
    pub(super) export: Vec<u8>,
    pub(super) statement: Vec<u8>,
}

// The bill by so many replicas, each of so many workers.
pub(super) fn billed<R: Threads + Wait + Sync>(
    rt: &R,
    alloc: Global,
    plan: &str,
    inputs: &[Input],
    (replicas, workers): (u32, u32),
) -> Result<Written, RunFault> {
    if inputs.is_empty() || inputs.len() > 256 {
        return Err(RunFault::from(AllocError));
    }
    if replicas < 1 || replicas > 16 || workers < 1 || workers > 64 {
        return Err(RunFault::from(AllocError));
    }
    let mut export = Host::new(Vec::new(alloc));
    let mut out = Host::new(Vec::new(alloc));
    let notes = run_bill(
        rt,
        alloc,
        plan.as_bytes(),
        inputs,
        replicas,
        workers,
        &NoGate,
        Some(&mut export),
        &mut out,
    )?;
    Ok(Written {
        notes: notes.len(),
        export: export.into_inner(),
        statement: out.into_inner(),
    })
}

// The bill by one thread.
pub(super) fn billed_plainly(
    alloc: Global,
    plan: &str,
    inputs: &[Input],
) -> Result<Written, RunFault> {
    if inputs.len() > 256 {
        return Err(RunFault::from(AllocError));
    }
    let mut export = Host::new(Vec::new(alloc));
    let mut out = Host::new(Vec::new(alloc));
    let notes = run_bill_plain(alloc, plan.as_bytes(), inputs, Some(&mut export), &mut out)?;
    Ok(Written {
        notes: notes.len(),
        export: export.into_inner(),
        statement: out.into_inner(),
    })
}

// Whether both are the same.
fn are_same(one: &Written, other: &Written) -> bool {
    one.notes == other.notes
        && one.export.as_slice() == other.export.as_slice()
        && one.statement.as_slice() == other.statement.as_slice()
}

// The exports of these reports, one each.
pub(super) fn export_of_each(alloc: Global, rows: &[Row]) -> Result<Vec<Input>, AllocError> {
    let mut inputs = Vec::new(alloc);
    for row in rows {
        inputs.push(plain(export(alloc, &[*row])?))?;
    }
    Ok(inputs)
}

const NUMBERS: [(u32, u32); 12] = [
    (1, 1),
    (1, 2),
    (1, 5),
    (2, 1),
    (2, 2),
    (2, 5),
    (3, 1),
    (3, 2),
    (3, 5),
    (16, 1),
    (16, 2),
    (16, 5),
];

// Whether a bill has the statement of the three reports.
fn states_three(alloc: Global, bill: &Written) -> bool {
    let Ok(text) = format!(in alloc; "{OPENING}{THREE_REPORTS}") else {
        return false;
    };
    (bill.statement.as_slice(), text.len()) == (text.as_bytes(), 144)
}

// Whether a bill has the export of the three reports, and notes of three inputs.
fn exports_three(bill: &Written) -> bool {
    (bill.export.as_slice(), bill.notes) == (EXPORT_OF_THREE.as_slice(), 3)
}

// Whether the bill by so many replicas, each of so many workers, is the same as this one.
pub(super) fn bills_as<R: Threads + Wait + Sync>(
    rt: &R,
    alloc: Global,
    plan: &str,
    inputs: &[Input],
    numbers: (u32, u32),
    plainly: &Written,
) -> bool {
    match billed(rt, alloc, plan, inputs, numbers) {
        Ok(billed) => are_same(&billed, plainly),
        Err(_) => false,
    }
}

#[test]
fn bills_alike_by_each_number_of_replicas_and_workers(rt: HostRuntime) {
    let alloc = rt.alloc();
    let Ok(inputs) = export_of_each(alloc, &[FIRST, SECOND, THIRD]) else {
        panic!(rt; "inputs");
    };
    let Ok(plainly) = billed_plainly(alloc, PLAN, &inputs) else {
        panic!(rt; "a bill");
    };
    assert!(rt; states_three(alloc, &plainly));
    assert!(rt; exports_three(&plainly));
    for (replicas, workers) in NUMBERS {
        let numbers = (replicas, workers);
        assert!(rt;
            bills_as(&rt, alloc, PLAN, &inputs, numbers, &plainly),
            "{replicas} {workers}"
        );
    }
}

// Three exports, and a message that ends before its length says.
fn with_a_cut(alloc: Global) -> Result<Vec<Input>, AllocError> {
    let mut inputs = export_of_each(alloc, &[FIRST, SECOND, THIRD])?;
    let mut cut = Vec::from_slice(alloc, &TEMPLATE_AND_RECORD)?;
    cut.truncate(64);
    inputs.push(plain(cut))?;
    Ok(inputs)
}

#[test]
fn refuses_the_first_input_with_a_fault(rt: HostRuntime) {
    let alloc = rt.alloc();
    let Ok(inputs) = with_a_cut(alloc) else {
        panic!(rt; "inputs");
    };
    let fault = RunFault {
        input: Some(3),
        family: Family::Wire,
        number: 1,
    };
    for numbers in NUMBERS {
        let refused = billed(&rt, alloc, PLAN, &inputs, numbers);
        assert!(rt; refused.err() == Some(fault));
    }
}

// The refusals of a bill whose statement, or whose export, goes to a writer that takes nothing, and whether the
// statement's writer took nothing where the export's didn't.
fn over_full_writers<R: Threads + Wait + Sync>(rt: &R, alloc: Global) -> bool {
    let Ok(inputs) = export_of_each(alloc, &[FIRST]) else {
        return false;
    };
    if inputs.len() != 1 {
        return false;
    }
    let mut full = Host::new(Full);
    let mut out = Host::new(Vec::new(alloc));
    let mut export = Host::new(Vec::new(alloc));
    let plan = PLAN.as_bytes();
    let failed = Some(RunFault {
        input: None,
        family: Family::Write,
        number: 1,
    });
    let asked = Some(&mut full);
    let exported = run_bill(rt, alloc, plan, &inputs, 2, 2, &NoGate, asked, &mut out).err();
    let asked = Some(&mut export);
    let stated = run_bill(rt, alloc, plan, &inputs, 2, 2, &NoGate, asked, &mut full).err();
    exported == failed && stated == failed && out.into_inner().is_empty()
}

// A writer with room for some octets, which takes one at a time.
#[derive(Drop)]
struct Narrow {
    taken: Vec<u8>,
    room: usize,
}

impl io::Write for Narrow {
    fn write(&mut self, octets: &[u8]) -> io::Result<usize> {
        let n = octets.len().min(1).min(self.room);
        self.taken.extend_from_slice(&octets[..n])?;
        self.room -= n;
        Ok(n)
    }

    fn flush(&mut self) -> io::Result<()> {
        Ok(())
    }
}

// Whether a bill whose statement goes to a writer with room for so many octets is refused for the write, and just these went out.
fn is_cut_off<R: Threads + Wait + Sync>(
    rt: &R,
    alloc: Global,
    inputs: &[Input],
    room: usize,
) -> bool {
    let Ok(text) = format!(in alloc; "{OPENING}{THREE_REPORTS}") else {
        return false;
    };
    if inputs.len() != 3 {
        return false;
    }
    let taken = Vec::new(alloc);
    let mut out = Host::new(Narrow { taken, room });
    let export: Option<&mut Host<Vec<u8>>> = None;
    let plan = PLAN.as_bytes();
    let refused = run_bill(rt, alloc, plan, inputs, 2, 2, &NoGate, export, &mut out).err();
    let taken = out.into_inner().taken;
    let went_out = Some(taken.as_slice()) == text.as_bytes().get(..room);
    refused == Some(RunFault::write()) && went_out
}

#[test]
fn refuses_a_write_that_fails(rt: HostRuntime) {
    assert!(rt; over_full_writers(&rt, rt.alloc()));
    let Ok(inputs) = export_of_each(rt.alloc(), &[FIRST, SECOND, THIRD]) else {
        panic!(rt; "inputs");
    };
    for room in [14, 143, 0] {
        assert!(rt; is_cut_off(&rt, rt.alloc(), &inputs, room), "{room}");
    }
}

// Whether a bill of two replicas, both of which were given the second report, writes the statement of three reports and their export,
// or is refused and writes nothing. The writers have room, so that no write takes memory.
fn writes_all_or_nothing<R: Threads + Wait + Sync>(
    rt: &R,
    alloc: Global,
) -> Result<bool, AllocError> {
    let inputs = export_of_each(alloc, &[FIRST, SECOND, SECOND, THIRD])?;
    let whole = export(alloc, &[FIRST, SECOND, THIRD])?;
    let text = format!(in alloc; "{OPENING}{THREE_REPORTS}")?;
    if inputs.len() != 4 {
        return Ok(false);
    }
    let mut out = Host::new(Vec::with_capacity(alloc, 4096)?);
    let mut export = Host::new(Vec::with_capacity(alloc, 4096)?);
    let plan = PLAN.as_bytes();
    let asked = Some(&mut export);
    let billed = run_bill(rt, alloc, plan, &inputs, 2, 2, &NoGate, asked, &mut out).is_ok();
    let (statement, export) = (out.into_inner(), export.into_inner());
    let is_all = statement.as_slice() == text.as_bytes() && export.as_slice() == whole.as_slice();
    Ok(if billed {
        is_all
    } else {
        statement.is_empty() && export.is_empty()
    })
}

// The test is run with each growth refused in turn.
#[test]
fn writes_nothing_where_it_is_refused(rt: HostRuntime) -> Result<(), Fail> {
    assert!(rt; writes_all_or_nothing(&rt, rt.alloc())?);
    Ok(())
}
