//! The commands of the program, for `clap`.
ghost use Rattle.std.specs.Prelude.{◌≡◌, ◌≤◌, IfOk, false};
ghost use Rattle.clap.specs.Words.{app_of, rule_of};
ghost use Rattle.clap.specs.declared.builder.command.Command.TheViews.{out-Command as fields_of};
ghost use Rattle.tca_commands.specs.Commands.{audit_command, number_up_to, bill_command, combine_command, meter_command, program};

use clap::builder::ValueParser;
use clap::{Arg, Command};
use std::alloc::{AllocError, Global};
use tca_program::{many_words, named, one_word, option_word};

const ABOUT: &str = "Usage accounting by three-colour meters (RFC 2697, RFC 2698, RFC 4115)";

const AFTER: &str = "Bill, and check the bill:
  tcacct bill --export monday.tcax plan.toml 1@north.ipfix 1@south.ipfix > monday.txt
  tcacct audit plan.toml monday.tcax monday.txt
Unite exports, and meter without a plan:
  tcacct combine week.tcax monday.tcax tuesday.tcax
  tcacct meter rfc2697:1000:2000:1000:blind week.tcax
Itemise a bill, or find what two exports differ in: see tcatool --help

Exit status: 0 done, 1 refused or an audit that differs, 2 wrong command line. A refused run
prints one line on standard error, `tcacct: WORD: FAMILY NUMBER`. WORD is the argument that
was refused, or else the command.
  read 1      a file isn't there or can't be read; 2 it doesn't end
  export 1    no log export; 2 another version; 3 too many reports or octets; 4 cut short;
              5 a report out of range; 6 reports out of order, or one twice
  wire 1      cut within a message; 2 no IPFIX message; 3 a message's length is below 16;
              4, 5, 6 a set's length is wrong
  decode 1    a template's number is below 256; 2, 3, 4 the template is faulty; 5 too many
              templates or fields; 6 a data record passes the end of its set
  plan 1      no TOML; 2 a key is missing; 3 a value is wrong; 4 an unknown key;
              5 numbers that make no meter; 6 a pair or a name twice; 7 too many of
              accounts, pairs or terms, or no account
  spec 1      none of the forms of a meter; 2 numbers that make no meter
  log 1       more than 4194304 reports; of several replicas absorb 4
  write 1     OUT or standard output can't be written
  work 3      a thread couldn't be started
  too little memory: memory 1, read 3, plan 8, log 2, share 3, absorb 4, work 5";

const METER: &str = "Meters the undisputed reports of one or two inputs, and prints the octets and
packets of each colour";

const METER_AFTER: &str = "SPEC is a meter with its parameters, in one of three forms:
  rfc2697:CIR:CBS:EBS:MODE          RFC 2697, for example rfc2697:1000:2000:1000:blind
  rfc2698:PIR:PBS:CIR:CBS:MODE      RFC 2698, for example rfc2698:2000:2000:1000:1000:aware
  rfc4115:CIR:CBS:EIR:EBS:FIT:MODE  RFC 4115, for example rfc4115:1000:1000:500:1000:exact:blind
CIR, PIR and EIR are the committed, the peak and the excess rate in octets a second; CBS,
PBS and EBS are the burst sizes of these rates in octets. Each has 1 to 13 digits and is at
most 1000000000000. CBS or EBS is above 0; PBS and CBS of RFC 2698 both are, and its PIR is
at least its CIR. FIT is exact where a packet may take all tokens of a bucket, and below
where one has to be left. MODE is blind, or aware where the colour that a packet's code
point gives it (RFC 2597) counts; a code point without colour is green.

An input is a log export (a file that begins with TCAX), or else a capture of IPFIX
messages, one after the other. Reports that both inputs hold count once; both together hold
at most 4194304. Three lines are printed: a colour, its octets, its packets.

INPUT is a path, or N@PATH for the file at PATH as a capture of session N. A session is one
transport connection of one exporter process; where its sequence numbers start anew, another
session begins. N is a number from 0 to 4294967295 that you choose: another one for each
session of an observation domain, and the same one for a session in every command. A path
alone is of session 0, and so is ./N@PATH, for a file with such a name.

A report is told from others by its domain, session and sequence number. So the records of
two sessions of one domain under one number fall on the same identities and dispute each
other, and disputed reports aren't metered. Collect each session into a file of its own: one
with the messages of two can't be cut afterwards. A log export carries the session of each
report, so that N makes no difference there.

Examples: tcacct meter rfc2697:1000:2000:1000:blind monday.tcax
          tcacct meter rfc2698:2000:2000:1000:1000:blind 1@north.ipfix 1@south.ipfix";

const COMBINE: &str = "Writes the union of the inputs' reports to OUT as one log export, and prints
how many reports it holds";

const COMBINE_AFTER: &str =
    "An input is a log export or a capture, and N@PATH one of session N, as `tcacct meter
--help` says. They hold at most 4194304 reports together. One line is printed: reports, and
how many there are.

All inputs are read before OUT is made, so OUT may be one of them. But where one is refused
OUT is left empty: write to a new file.

OUT is an export of version 2, which carries the session of each report. Exports of version
1 are read too, all their reports as of session 0: `tcacct combine OUT OLD` writes one anew
in version 2.

Examples: tcacct combine monday.tcax 1@north.ipfix 1@south.ipfix
          tcacct combine week.tcax monday.tcax tuesday.tcax";

const BILL: &str =
    "Prints the statement of the inputs' union under PLAN: for each account the octets and
packets of each colour, in all and by period";

const BILL_AFTER: &str =
    "An input is a log export or a capture, and N@PATH one of session N, as `tcacct meter
--help` says. They hold at most 4194304 reports together. All files are read before OUT is
made, so OUT may be one of them. But where one is refused OUT is left empty: write to a new
file.

The statement's lines: period, in milliseconds; reports, distinct ones; disputed, identities
of two or more reports, none of which is metered; unassigned, undisputed reports of no
account. For each account its name, and six numbers, the octets and packets of green, of
yellow and of red: in total, and in each span, a period counted from the start of 1970 (UTC).

For each capture with records that are no reports, messages with a set of an unknown
template, or skipped sets, a line on standard error, notes, says how many of each.

PLAN may change the meter of an account at stated milliseconds: each [[account.term]] has its
`from`, and a meter that goes on from there with full buckets.

The inputs are dealt out to so many replicas, each of which reads its own with so many
workers; then each takes in what the others read, and all are compared. The statement and
OUT are the same for every number of both. A replica costs memory for all reports, and
workers let a machine with several processors read several inputs at a time.

Examples: tcacct bill plan.toml monday.ipfix
          tcacct bill --export week.tcax plan.toml monday.tcax 1@tuesday.ipfix";

/// The most replicas of a bill, workers of each of them, and inputs.
pub(crate) const MOST_REPLICAS: u32 = 16;

pub(crate) const MOST_WORKERS: u32 = 64;

pub(crate) const MOST_BILLED: usize = 256;

const AUDIT: &str =
    "Checks whether STATEMENT is, to the octet, the statement of EXPORT's reports under
PLAN, by letting tokens in one at a time";

const AUDIT_AFTER: &str =
    "EXPORT is a log export, as `tcacct bill --export` writes it. One line is printed: agrees, or
differs at N, where N is the first octet that differs, counted from 0, or the length of the
shorter text. Exit status: 0 agrees, 1 differs or refused. Where two sides have two exports,
`tcatool diff` says which reports only one of them has.

Examples: tcacct audit plan.toml week.tcax statement.txt
          tcacct audit plan.toml theirs.tcax their-statement.txt";

// An option whose value is a number from 1 to this one; it is 2 where the option isn't given.
fn number_up_to<'a>(alloc: Global, id: &'a str, most: u32, help: &'a str) -> Arg<'a>
    ensures rule { rule_of result ≡ number_up_to id.entry.now most }
    ensures local { result.global ≡ false }
{
    Arg::new(alloc, id)
        .long(id)
        .value_name("N")
        .default_value("2")
        .value_parser(ValueParser::unsigned(1, u64::from(most)))
        .help(help)
}

// The command `meter`.
fn meter<'a>(alloc: Global) -> Result<Command<'a>, AllocError>
    ensures { IfOk result (λ c. (app_of c ≡ meter_command)
        × ((fields_of c).has_globals ≡ false)) }
{
    let command = named(alloc, "meter", METER, METER_AFTER);
    let command = command.arg(one_word(alloc, "SPEC", "the meter and its parameters"))?;
    Ok(command.arg(many_words(
        alloc,
        "INPUT",
        2,
        "one or two files of reports, each PATH or N@PATH",
    ))?)
}

// The command `combine`.
fn combine<'a>(alloc: Global) -> Result<Command<'a>, AllocError>
    ensures { IfOk result (λ c. (app_of c ≡ combine_command)
        × ((fields_of c).has_globals ≡ false)) }
{
    let command = named(alloc, "combine", COMBINE, COMBINE_AFTER);
    let command = command.arg(one_word(alloc, "OUT", "the file to write"))?;
    Ok(command.arg(many_words(
        alloc,
        "INPUT",
        4_294_967_295,
        "files of reports, each PATH or N@PATH",
    ))?)
}

// The command `bill`.
fn bill<'a>(alloc: Global) -> Result<Command<'a>, AllocError>
    ensures { IfOk result (λ c. (app_of c ≡ bill_command)
        × ((fields_of c).has_globals ≡ false)) }
{
    let command = named(alloc, "bill", BILL, BILL_AFTER);
    let command = command.arg(number_up_to(
        alloc,
        "replicas",
        MOST_REPLICAS,
        "replicas, from 1 to 16",
    ))?;
    let command = command.arg(number_up_to(
        alloc,
        "workers",
        MOST_WORKERS,
        "workers of each, from 1 to 64",
    ))?;
    let command = command.arg(option_word(
        alloc,
        "export",
        "OUT",
        "a file for the export of the union",
    ))?;
    let command = command.arg(one_word(alloc, "PLAN", "the plan, a TOML file"))?;
    Ok(command.arg(many_words(
        alloc,
        "INPUT",
        MOST_BILLED,
        "1 to 256 files of reports, each PATH or N@PATH",
    ))?)
}

// The command `audit`.
fn audit<'a>(alloc: Global) -> Result<Command<'a>, AllocError>
    ensures { IfOk result (λ c. (app_of c ≡ audit_command)
        × ((fields_of c).has_globals ≡ false)) }
{
    let command = named(alloc, "audit", AUDIT, AUDIT_AFTER);
    let command = command.arg(one_word(alloc, "PLAN", "the plan, a TOML file"))?;
    let command = command.arg(one_word(alloc, "EXPORT", "a log export"))?;
    Ok(command.arg(one_word(alloc, "STATEMENT", "the statement to check"))?)
}

/// The program's command line, for clap.
pub(crate) fn program<'a>(alloc: Global) -> Result<Command<'a>, AllocError>
    ensures { IfOk result (λ c. app_of c ≡ program) }
{
    let command = Command::new(alloc, "tcacct")
        .about(ABOUT)
        .after_help(AFTER)
        .subcommand_required(true);
    let command = command.subcommand(meter(alloc)?)?;
    let command = command.subcommand(combine(alloc)?)?;
    let command = command.subcommand(bill(alloc)?)?;
    Ok(command.subcommand(audit(alloc)?)?)
}
