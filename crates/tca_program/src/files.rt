//! The files that a command line names.
ghost use Rattle.std.specs.Prelude.{◌≡◌, ◌<◌, ◌^◌, IfErr, IfOk, None, Some, length, map};
ghost use Rattle.tca_program.specs.Reads.{IsFileRefused, IsReadRefused};
ghost use Rattle.tca_program.specs.Unions.{write_refusal};
ghost use Rattle.tca_program.specs.Words.{HaveSessions, texts};

use crate::fault::RunFault;
use crate::word::{Asked, asked_by};
use std::alloc::AllocError;
use std::fs;
use std::rt::Files;
use tca_report::{Host, Input, ReadFault, read_octets};

// A file without octets in the place of a standard descriptor that the program was started without.
fn placeholder<R: Files>(rt: &R, descriptor: &str) -> Option<R::File> {
    if fs::metadata(rt, descriptor).is_ok() {
        return None;
    }
    fs::open(rt, "/dev/null").ok()
}

/// `/dev/null`, opened to be read, in the place of each of standard input, standard output and standard error that the program was started
/// without, as long as the answer is kept. Else the next file that is opened would be in that place, and get what is printed; now a
/// print fails as a write. Where `/dev` can't be read there is none.
pub fn standard_placeholders<R: Files>(rt: &R) -> [Option<R::File>; 3] {
    [
        placeholder(rt, "/dev/fd/0"),
        placeholder(rt, "/dev/fd/1"),
        placeholder(rt, "/dev/fd/2"),
    ]
}

// A file's octets. One that can't be opened has the fault of one that can't be read.
fn read_file<R: Files + AllocGlobal>(rt: &R, path: &str) -> Result<Vec<u8>, ReadFault> {
    match fs::open(rt, path) {
        Ok(file) => read_octets(rt.alloc(), &mut Host::new(file)),
        Err(_) => Err(ReadFault::Read),
    }
}

/// The octets of a plan's file. `read` 1 where it can't be opened or a read failed, 2 where it didn't end within 4,194,304 reads, 3
/// where a growth was refused, each of no input.
pub fn read_plan<R: Files + AllocGlobal>(rt: &R, path: &str) -> Result<Vec<u8>, RunFault>
    ensures refused { IfErr result (IsFileRefused None) }
{
    match read_file(rt, path) {
        Ok(octets) => Ok(octets),
        Err(fault) => Err(RunFault::read(None, fault)),
    }
}

/// The octets of an audit's export, number 0, or of its statement, number 1, refused as [`read_plan`] is, but of that number.
pub fn read_numbered<R: Files + AllocGlobal>(
    rt: &R,
    number: u32,
    path: &str,
) -> Result<Vec<u8>, RunFault>
    ensures refused { IfErr result (IsFileRefused (Some number)) }
{
    match read_file(rt, path) {
        Ok(octets) => Ok(octets),
        Err(fault) => Err(RunFault::read(Some(number), fault)),
    }
}

// The inputs that are asked for, in order; the first one whose file can't be read refuses all.
fn read_asked<R: Files + AllocGlobal>(rt: &R, asked: &[Asked<'_>]) -> Result<Vec<Input>, RunFault>
    ensures few { IfOk result (λ inputs. length inputs.items < 2 ^ 32) }
    ensures sessions { IfOk result (λ inputs. map (λ input. input.session) inputs.items ≡ map (λ one. one.session) asked.now) }
    ensures refused { IfErr result (IsReadRefused (length asked.now)) }
{
    // The command line takes no more words than that.
    if asked.len() > u32::MAX as usize {
        return Err(RunFault::from(AllocError));
    }
    let mut inputs = Vec::new(rt.alloc());
    for (n, one) in asked.iter().enumerate() {
        let session = one.session;
        match read_file(rt, one.path) {
            Ok(octets) => {
                if inputs.push(Input { session, octets }).is_err() {
                    return Err(RunFault::from(AllocError));
                }
            }
            Err(fault) => return Err(RunFault::read(Some(n as u32), fault)),
        }
    }
    Ok(inputs)
}

/// The inputs of a command, in the order of its words. The first one whose file can't be read refuses all, as [`read_plan`] is
/// refused, but of its number; `memory` 1 of no input where a growth was refused for their list.
pub fn read_inputs<R: Files + AllocGlobal>(rt: &R, words: &[&str]) -> Result<Vec<Input>, RunFault>
    ensures few { IfOk result (λ inputs. length inputs.items < 2 ^ 32) }
    ensures each { IfOk result (λ inputs. length inputs.items ≡ length words.now) }
    ensures sessions { IfOk result (λ inputs. HaveSessions (texts words.now) inputs.items) }
    ensures refused { IfErr result (IsReadRefused (length words.now)) }
{
    let asked = asked_by(rt.alloc(), words)?;
    read_asked(rt, &asked)
}

/// A new or emptied file to write to; `write` 1 where it can't be made.
pub fn create<R: Files>(rt: &R, path: &str) -> Result<Host<R::File>, RunFault>
    ensures refused { IfErr result (λ e. e ≡ write_refusal) }
{
    match fs::create(rt, path) {
        Ok(file) => Ok(Host::new(file)),
        Err(_) => Err(RunFault::write()),
    }
}
