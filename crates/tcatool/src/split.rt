//! The command `split`.
ghost use Rattle.std.specs.Prelude.{◌≡◌, ◌≢◌, ◌⊎◌, ◌<◌, ◌≤◌, ◌+◌, ℕ, List, Some, Err, IfOk, IfErr, OnOk, IsErrOf, length};
ghost use Rattle.tca_report.specs.device.Devices.{Rises};
ghost use Rattle.tca_split.specs.Failures.{most_turns};
ghost use Rattle.tca_split.specs.Splits.{IsReady};
ghost use Rattle.tca_split.specs.Wants.{WantsMemory};
ghost use Rattle.tca_program.specs.declared.fault.Family.TheVariants as family;
ghost use Rattle.tca_program.specs.Devices.{IsCutOff, Receives, device};
ghost use Rattle.tca_program.specs.Unions.{memory_refusal, refusal, write_refusal};
ghost use Rattle.tcatool.specs.Splitting.{IsFilesRefused, IsPartsPrinted, IsSplitDone, IsSplitRefused, WhereKnown, parts_text, place, split_refusal};

use crate::cell::{Buffer, append};
use crate::progress::{Progress, Silent, Watch};
use std::alloc::Global;
use std::fs::{self, OpenOptions};
use std::io::{self, ErrorKind, Write as _};
use std::rt::{Clock, Files};
use tca_program::{Family, RunFault};
use tca_report::{Host, Read, ReadFault, Write, put_all};
use tca_split::{Folder, Parts, SplitFault, split};

// A directory with the file `D.ipfix` for each observation domain D.
#[derive(Drop)]
struct Directory<'r, R: Files> {
    rt: &'r R,
    path: &'r str,
    /// Files that are open, each with its domain.
    open: Vec<(u32, R::File)>,
    failures: u64,
}

impl<'r, R: Files + AllocGlobal> Directory<'r, R> {
    fn new(rt: &'r R, path: &'r str) -> Directory<'r, R> {
        Directory {
            rt,
            path,
            open: Vec::new(rt.alloc()),
            failures: 0,
        }
    }
}

// The path of the file of a domain. No folder has an empty name: such a path would lead to the root.
fn path_of(alloc: Global, folder: &str, domain: u32) -> io::Result<String> {
    if folder.is_empty() {
        return Err(io::Error::from(ErrorKind::NotFound));
    }
    Ok(format!(in alloc; "{folder}/{domain}.ipfix")?)
}

// Whether the file of a domain is there.
fn look_for<R: Files + AllocGlobal>(rt: &R, folder: &str, domain: u32) -> io::Result<bool> {
    let path = path_of(rt.alloc(), folder, domain)?;
    match fs::symlink_metadata(rt, path.as_str()) {
        Ok(_) => Ok(true),
        Err(error) if error.kind() == ErrorKind::NotFound => Ok(false),
        Err(error) => Err(error),
    }
}

// Opens the file of a domain. Where no more may be open at once, the one that was opened last is closed first. So the
// others stay open, however many domains take turns.
fn open_file<R: Files + AllocGlobal>(
    rt: &R,
    folder: &str,
    open: &mut Vec<(u32, R::File)>,
    domain: u32,
    how: &OpenOptions,
) -> io::Result<()> {
    let path = path_of(rt.alloc(), folder, domain)?;
    // Room comes first, so that no file is made that couldn't be kept open.
    open.reserve(1)?;
    for _ in 0..=open.len() {
        match how.open(rt, path.as_str()) {
            Ok(file) => {
                open.push((domain, file))?;
                return Ok(());
            }
            Err(error) => {
                if open.pop().is_none() {
                    return Err(error);
                }
            }
        }
    }
    Err(io::Error::from(ErrorKind::Other))
}

// Where the open file of a domain is in the list.
fn place_of<F>(open: &[(u32, F)], domain: u32) -> Option<usize> {
    open.iter().position(|one| one.0 == domain)
}

// Writes some of the octets to a file.
fn write_some<F: io::Write>(file: &mut F, octets: &[u8]) -> io::Result<usize>
    ensures bound { IfOk result (λ n. n ≤ length octets.now) }
    ensures some { IfOk result (λ n. 0 < n) }
{
    match file.write(octets) {
        Ok(0) => Err(io::Error::from(ErrorKind::WriteZero)),
        Ok(n) => Ok(n),
        Err(error) => Err(error),
    }
}

// Writes some of the octets at the end of a domain's file, which is opened where it isn't open.
fn append_to<R: Files + AllocGlobal>(
    rt: &R,
    folder: &str,
    open: &mut Vec<(u32, R::File)>,
    domain: u32,
    octets: &[u8],
) -> io::Result<usize>
    ensures bound { IfOk result (λ n. n ≤ length octets.now) }
    ensures some { IfOk result (λ n. 0 < n) }
{
    let place = match place_of(open.as_slice(), domain) {
        Some(place) => place,
        None => {
            open_file(rt, folder, open, domain, OpenOptions::new().append(true))?;
            open.len().saturating_sub(1)
        }
    };
    match open.get_mut(place) {
        Some(one) => write_some(&mut one.1, octets),
        None => Err(io::Error::from(ErrorKind::Other)),
    }
}

impl<'r, R: Files + AllocGlobal> Folder for Directory<'r, R> {
    ghost use Rattle.std.specs.Prelude.{None};

    // What files hold isn't known.
    ghost files = { λ _. None };

    ghost failures = { λ d. d.failures };

    fn has(&mut self, domain: u32) -> io::Result<bool> {
        match look_for(self.rt, self.path, domain) {
            Ok(there) => Ok(there),
            Err(error) => {
                self.failures = self.failures.saturating_add(1);
                Err(error)
            }
        }
    }

    fn create(&mut self, domain: u32) -> io::Result<()> {
        let mut how = OpenOptions::new();
        how.write(true).create_new(true);
        match open_file(self.rt, self.path, &mut self.open, domain, &how) {
            Ok(()) => Ok(()),
            Err(error) => {
                self.failures = self.failures.saturating_add(1);
                Err(error)
            }
        }
    }

    fn append(&mut self, domain: u32, octets: &[u8]) -> io::Result<usize> {
        match append_to(self.rt, self.path, &mut self.open, domain, octets) {
            Ok(n) => Ok(n),
            Err(error) => {
                self.failures = self.failures.saturating_add(1);
                Err(error)
            }
        }
    }
}

// A reader that tells how many octets it has given.
#[derive(Drop)]
struct Watched<'w, D, W> {
    reader: D,
    given: u64,
    watch: &'w mut W,
}

impl<'w, D: Read, W: Watch> Read for Watched<'w, D, W> {
    ghost left = { λ w. D.left w.reader };

    ghost failures = { λ w. D.failures w.reader };

    ghost reads = { λ w. D.reads w.reader };

    fn read(&mut self, into: &mut [u8]) -> io::Result<usize> {
        match self.reader.read(into) {
            Ok(n) => {
                self.given = self.given.saturating_add(n as u64);
                self.watch.done(self.given);
                Ok(n)
            }
            Err(error) => Err(error),
        }
    }
}

// The refusal of the capture, or of the command, by a fault of splitting.
fn refusal_of(fault: SplitFault) -> RunFault
    ensures { result ≡ split_refusal fault }
{
    let (family, number) = match fault {
        SplitFault::Read(fault) => (Family::Read, fault.number()),
        SplitFault::Changed => (Family::Read, ReadFault::Read.number()),
        SplitFault::Wire(fault) => (Family::Wire, fault.number()),
        SplitFault::Limits => (Family::Limits, 1),
        SplitFault::Exists | SplitFault::Write => return RunFault::write(),
        SplitFault::Memory => return RunFault::without_input(Family::Memory, 1),
    };
    RunFault {
        input: Some(0),
        family,
        number,
    }
}

// Prints how many domains and messages there are.
fn print_parts<W: Write>(parts: Parts, out: &mut W) -> Result<(), RunFault>
    ensures done { OnOk result (Receives (parts_text parts)
        (device W.written W.failures out.old) (device W.written W.failures out.new)) }
    ensures cut_off { IfErr result (λ e. (e ≡ write_refusal) × IsCutOff (parts_text parts)
        (device W.written W.failures out.old) (device W.written W.failures out.new)) }
{
    let mut text = Buffer::new();
    append(b"domains ", &mut text);
    append(
        itoa::Buffer::new().format(parts.domains).as_bytes(),
        &mut text,
    );
    append(b"\nmessages ", &mut text);
    append(
        itoa::Buffer::new().format(parts.messages).as_bytes(),
        &mut text,
    );
    append(b"\n", &mut text);
    put_all(text.as_slice(), out)?;
    Ok(())
}

/// Splits a capture that comes from two readings of it into files of a folder, one for each observation domain, and prints how many
/// domains and messages there are.
///
/// The capture, input 0, is blamed for these:
/// - `wire` 1, 2 and 3: a fault of its framing; `limits` 1: a message of one domain more than 4,096. The first of them from the left is
///   told, by the first reading, and no file was made.
/// - `read` 1: a read failed; `read` 2: a reading didn't end within 2^64 - 1 reads. Of the first reading, no file was made; of the second,
///   files were begun.
///
/// A capture that changed between its readings is `read` 1 where the second has a domain that the first had none of, and `wire` 1, 2 or 3
/// where the second has a fault of its framing; then too files were begun. Where it has other messages of the same domains it is split as
/// the second reading gives it, and the numbers that are printed are the first one's.
///
/// No input is blamed for these:
/// - `write` 1: a file of a domain is there already, or couldn't be looked for, and none was made; or one couldn't be made or written, and
///   files were begun; or what is printed couldn't be written, and the files are whole.
/// - `memory` 1: there was no memory, and no file was made.
///
/// A file that was begun is left with octets from the front of its domain's messages, or with none. It has to be deleted before the next
/// run, which else is `write` 1.
pub fn run_split<A: Read, B: Read, F: Folder, W: Write>(
    alloc: Global,
    first: &mut A,
    second: &mut B,
    folder: &mut F,
    out: &mut W,
) -> Result<(), RunFault>
    ensures done { OnOk result (IsSplitDone (record { first = A.left first.old; second = B.left second.old })
        (place F.files F.failures folder.old) (place F.files F.failures folder.new)
        (device W.written W.failures out.old) (device W.written W.failures out.new)) }
    ensures refused { IfErr result (IsSplitRefused (record { first = A.left first.old; second = B.left second.old })
        (place F.files F.failures folder.old) (place F.files F.failures folder.new)
        (device W.written W.failures out.old) (device W.written W.failures out.new)) }

    // Where memory is told, nothing in front was to be refused.
    ensures memory { IsErrOf result memory_refusal → (octets : List ℕ) → A.left first.old ≡ Some octets
        → (A.reads first.new ≡ A.reads first.old) ⊎ WantsMemory octets (A.left first.new) ⊎ IsReady octets (F.files folder.old) }

    // And no file was made.
    ensures untouched { IsErrOf result memory_refusal → F.files folder.new ≡ F.files folder.old }

    // Where a failed read is told, a read failed, unless the capture changed between its readings.
    ensures read { IsErrOf result (refusal (Some 0) family.Read 1)
        → WhereKnown (record { first = A.left first.old; second = B.left second.old }) (place F.files F.failures folder.old)
        (λ octets files. Rises (A.failures first.old) (A.failures first.new) ⊎ Rises (B.failures second.old) (B.failures second.new)) }
    ensures turns { IsErrOf result (refusal (Some 0) family.Read 2)
        → (A.reads first.new ≡ A.reads first.old + most_turns) ⊎ (B.reads second.new ≡ B.reads second.old + most_turns) }

    // No failed read is told as something else.
    ensures quiet { result ≢ Err (refusal (Some 0) family.Read 1)
        → (A.failures first.new ≡ A.failures first.old) × (B.failures second.new ≡ B.failures second.old) }
{
    match split(alloc, first, second, folder) {
        Ok(parts) => print_parts(parts, out),
        Err(fault) => Err(refusal_of(fault)),
    }
}

// The length of the capture's file, which has to be a regular one: of a pipe, as of the shell's, a second reading gives nothing.
fn length_of<R: Files>(rt: &R, capture: &str) -> Result<u64, RunFault>
    ensures refused { IfErr result (λ e. e ≡ refusal (Some 0) family.Read 1) }
{
    match fs::metadata(rt, capture) {
        Ok(metadata) if metadata.is_file() => Ok(metadata.len()),
        _ => Err(RunFault::read(Some(0), ReadFault::Read)),
    }
}

// Opens the capture.
fn open<R: Files>(rt: &R, capture: &str) -> Result<Host<R::File>, RunFault>
    ensures refused { IfErr result (λ e. e ≡ refusal (Some 0) family.Read 1) }
{
    match fs::open(rt, capture) {
        Ok(file) => Ok(Host::new(file)),
        Err(_) => Err(RunFault::read(Some(0), ReadFault::Read)),
    }
}

// Splits the file of a capture, each reading of which is watched.
fn split_watched<R: Files + AllocGlobal, T: Watch, W: Write>(
    rt: &R,
    folder: &str,
    capture: &str,
    watch: &mut T,
    out: &mut W,
) -> Result<(), RunFault>
    ensures done { OnOk result (IsPartsPrinted
        (device W.written W.failures out.old) (device W.written W.failures out.new)) }
    ensures refused { IfErr result (IsFilesRefused
        (device W.written W.failures out.old) (device W.written W.failures out.new)) }
{
    let (first, second) = (open(rt, capture)?, open(rt, capture)?);
    let mut folder = Directory::new(rt, folder);
    let mut silent = Silent;
    let mut first = Watched {
        reader: first,
        given: 0,
        watch: &mut silent,
    };
    let mut second = Watched {
        reader: second,
        given: 0,
        watch,
    };
    run_split(rt.alloc(), &mut first, &mut second, &mut folder, out)
}

/// Splits the file of a capture into files of a folder, one for each observation domain. Where it is asked for, how far the second
/// reading is is told on standard error.
///
/// The file is opened twice before the folder is looked at: `read` 1, of input 0, where it can't be opened or isn't a regular file, as a
/// pipe, which can't be read twice. The rest is refused as `run_split` does, and leaves what that leaves. A folder that isn't there is `write` 1, which blames no
/// input, once its first file is to be made.
pub fn split_file<R: Files + Clock + AllocGlobal, W: Write, V: io::Write>(
    rt: &R,
    folder: &str,
    capture: &str,
    tells: bool,
    out: &mut W,
    errors: &mut V,
) -> Result<(), RunFault>
    ensures done { OnOk result (IsPartsPrinted
        (device W.written W.failures out.old) (device W.written W.failures out.new)) }
    ensures refused { IfErr result (IsFilesRefused
        (device W.written W.failures out.old) (device W.written W.failures out.new)) }
{
    let all = length_of(rt, capture)?;
    if !tells {
        return split_watched(rt, folder, capture, &mut Silent, out);
    }
    let mut progress = Progress::new(rt, errors, "split", all);
    split_watched(rt, folder, capture, &mut progress, out)
}
