//! How a run of a program ends: what goes to standard error, and the exit status.
ghost use Rattle.std.specs.Prelude.{◌≡◌, ◌≢◌, ◌≤◌, ◌⊎◌, Some, IfErr, IfOk, map, string_bytes};
ghost use Rattle.std.specs.Fmt.{DisplaysOnOk};
ghost use Rattle.tca_program.specs.Devices.{IsCutOff, Receives, device};
ghost use Rattle.tca_program.specs.Endings.{error_text, fault_line, status_of};
ghost use Rattle.tca_program.specs.LineFaults.{help_text, line_number, line_status};

use crate::fault::RunFault;
use crate::line_fault::LineFault;
use std::alloc::{AllocError, Global};
use std::env::Env;
use std::{env, fmt, io};
use tca_report::{Write, put_all};

/// How a run of a program ended. It prints as what goes to standard error, but for what a command that was done says there; printing it
/// takes no memory.
#[derive(Debug, Drop)]
pub enum Ending<'a> {
    /// The command did what was asked.
    Done,
    /// What the command compared differs.
    Differs,
    /// The command of a program of this name was refused; the line has a word of the command line.
    Refused {
        program: &'a str,
        word: &'a str,
        fault: RunFault,
    },
    /// The words ask a program of this name for no command.
    NoCommand {
        program: &'a str,
        fault: LineFault,
    },
}

impl Ending<'_> {
    /// The exit status: 0 where the program did what was asked, help included; 1 where it was refused or what was compared differs; 2
    /// for a wrong command line.
    pub fn status(&self) -> u8
        ensures { result ≡ status_of self.now }
    {
        match self {
            Ending::Done => 0,
            Ending::Differs => 1,
            Ending::Refused { .. } => 1,
            Ending::NoCommand { fault, .. } => status_of_line(fault),
        }
    }
}

// The exit status where the words ask for no command.
fn status_of_line(fault: &LineFault) -> u8
    ensures { result ≡ line_status fault.now }
{
    match fault {
        LineFault::Usage { .. } => 2,
        LineFault::Help { .. } => 0,
        LineFault::Memory => 1,
    }
}

impl fmt::Display for Ending<'_> {
    ghost output = { λ e. Some (error_text e) };

    fn fmt<W: fmt::Write>(&self, f: &mut fmt::Formatter<W>) -> fmt::Result {
        match self {
            Ending::Done => Ok(()),
            Ending::Differs => Ok(()),
            Ending::Refused {
                program,
                word,
                fault,
            } => write_line(*program, *word, *fault, f),
            Ending::NoCommand {
                fault: LineFault::Usage { text },
                ..
            } => f.write_str(text.as_str()),
            Ending::NoCommand {
                fault: LineFault::Help { .. },
                ..
            } => Ok(()),
            Ending::NoCommand {
                program,
                fault: LineFault::Memory,
            } => write_line(*program, *program, RunFault::from(AllocError), f),
        }
    }
}

// The line of a refusal.
fn write_line<W: fmt::Write>(
    program: &str,
    word: &str,
    fault: RunFault,
    f: &mut fmt::Formatter<W>,
) -> fmt::Result
    ensures { DisplaysOnOk W.write_str_gives f.old result (Some (fault_line program.now word.now fault)) f.new }
{
    write!(f, "{program}: {word}: {fault}\n")
}

/// Prints an ending to `errors`, as far as that goes, and gives its exit status.
pub fn end<V: io::Write>(ending: &Ending<'_>, errors: &mut V) -> u8
    ensures { result ≡ status_of ending.now }
{
    let _unwritten = write!(errors, "{ending}");
    ending.status()
}

/// Prints the text of help that was asked for, as far as that goes. Any other fault prints nothing.
pub fn print_help<W: Write>(fault: &LineFault, out: &mut W)
    ensures help { Receives (help_text fault.now) (device W.written W.failures out.old) (device W.written W.failures out.new)
        ⊎ IsCutOff (help_text fault.now) (device W.written W.failures out.old) (device W.written W.failures out.new) }
    ensures quiet { line_number fault.now ≢ 2 → out.new ≡ out.old }
{
    if let LineFault::Help { text } = fault {
        let _unwritten = put_all(text.as_bytes(), out);
    }
}

const NOT_TEXT: &str = "error: a word of the command line is not UTF-8\n";

/// The words of the command line, of which the first is the program's own name. They are refused where
/// one isn't UTF-8, or where there is no memory for them.
pub fn words_of<R: Env + AllocGlobal>(rt: &R) -> Result<Vec<String>, LineFault>
    ensures { IfErr result (λ fault. 1 ≤ line_status fault) }
{
    match env::args(rt) {
        Ok(args) => Ok(args.collect(rt.alloc())?),
        Err(error) if error.kind() == io::ErrorKind::InvalidData => {
            let text = String::from_str(rt.alloc(), NOT_TEXT)?;
            Err(LineFault::Usage { text })
        }
        Err(_) => Err(LineFault::Memory),
    }
}

/// Words as texts. `AllocError` where a growth was refused.
pub fn texts_of(alloc: Global, words: &[String]) -> Result<Vec<&str>, AllocError>
    ensures { IfOk result (λ texts. map (λ s. s.now) texts.items ≡ map (λ s. string_bytes s) words.now) }
{
    let mut texts = Vec::new(alloc);
    for word in words {
        texts.push(word.as_str())?;
    }
    Ok(texts)
}
