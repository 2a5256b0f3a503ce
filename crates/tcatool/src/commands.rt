//! The commands of the program, for `clap`.
ghost use Rattle.std.specs.Prelude.{◌≡◌, IfOk, false};
ghost use Rattle.clap.specs.Words.{app_of};
ghost use Rattle.clap.specs.declared.builder.command.Command.TheViews.{out-Command as fields_of};
ghost use Rattle.tcatool.specs.Commands.{add_command, bare_program, diff_command, json_command, list_command, over_inputs, over_statements, page_command, pairs_command, program, split_command, table_command};

use clap::Command;
use std::alloc::{AllocError, Global};
use tca_program::{flag, many_words, named, one_word, option_word};

const ABOUT: &str = "Looks at usage: what there is, what was billed, and what differs";

const AFTER: &str = "Of reports:    pairs, list, diff, split
Of statements: table, json, page, add

Examples: tcatool pairs 1@monday.ipfix
          tcatool list --plan plan.toml monday.tcax
          tcatool page monday.html monday.txt

Exit status: 0 done, 1 refused or, of diff, what was compared differs, 2 wrong command line.
A refused run prints one line on standard error, `tcatool: WORD: FAMILY NUMBER`. WORD is the
argument that was refused, or else the command.
  read, export, wire, decode, plan, log: as `tcacct --help` says
  statement 1  a line that may not stand there; 2 a total isn't the sum of its periods;
               3 another period or account than before; 4 a sum is above 2^64 - 1
  limits 1     messages of more than 4096 domains
  write 1      a file or standard output can't be written, or a file is there already
  too little memory: memory 1, read 3, plan 8, log 2, statement 5";

const MOST_FILES: usize = 4_294_967_295;

const INPUT: &str = "files of reports, each PATH or N@PATH";

const STATEMENT: &str = "a statement, as `tcacct bill` prints it";

const PROGRESS: &str = "tell on standard error how far it is, once a second at most";

const PAIRS: &str =
    "Prints which pairs of observation domain and interface there are, with their usage";

const PAIRS_AFTER: &str = "One line of CSV a pair, ascending, under the header
domain,interface,reports,packets,octets,first,last. reports counts all reports, disputed ones
too; packets and octets count those that no other report of the same identity disputes; first
and last are the least and the greatest time of all, in milliseconds from 1970 UTC.

An input is a log export or a capture, and N@PATH one of session N, as `tcacct meter --help`
says.

Example: tcatool pairs monday.tcax 1@tuesday.ipfix";

const LIST: &str = "Prints each report of the inputs, and with a plan what it is billed as";

const LIST_AFTER: &str =
    "One line of CSV a report of the inputs' union, in the order of time, under the header
time,domain,session,place,octets,dscp,interface,state,account,colour. time is in milliseconds
from 1970 UTC. state is settled, or disputed where another report has the same domain,
session and place; a disputed report isn't billed. With a plan, account is the one that owns
a settled report and colour the one under which it is billed, green, yellow or red; both are
empty where no account owns it, and without a plan.

The octets and the number of an account's lines of a colour are those of the statement that
`tcacct bill` prints of the same plan and inputs.

An input is a log export or a capture, and N@PATH one of session N, as `tcacct meter --help`
says.

Examples: tcatool list monday.tcax
          tcatool list --plan plan.toml monday.tcax 1@tuesday.ipfix";

const DIFF: &str = "Prints the reports that only one of two inputs has";

const DIFF_AFTER: &str = "One line of CSV a report, in the order of time, under the header
side,time,domain,session,place,octets,dscp,interface, where side is A or B. A line on standard
error counts the reports that only A has, that only B has, and that both have. Reports are
compared as wholes: two reports of one identity that differ are a line each.

An input is a log export or a capture, and N@PATH one of session N, as `tcacct meter --help`
says. Exit status: 0 where no report differs, 1 where some do or the run is refused.

Example: tcatool diff ours.tcax theirs.tcax";

const TABLE: &str = "Prints a statement as CSV";

const TABLE_AFTER: &str =
    "One line for each account's total, and behind it one for each of its periods, under the header
account,span,start,green_octets,green_packets,yellow_octets,yellow_packets,red_octets,
red_packets (in one line). span counts periods from the start of 1970, and start is the
period's first moment (RFC 3339, UTC; empty from 9999-12-30T22:00:01Z on); of a total both are
empty.

Example: tcatool table monday.txt";

const JSON: &str = "Prints a statement as one JSON object";

const JSON_AFTER: &str =
    "The object has accounts, disputed, format, period, reports and unassigned. period is in
milliseconds. An account has name, spans and total; sums are objects green, red and yellow of
octets and packets, and a span has index and start (RFC 3339, UTC; null from
9999-12-30T22:00:01Z on) besides.

Example: tcatool json monday.txt";

const PAGE: &str = "Writes a statement as one HTML page with pictures";

const PAGE_AFTER: &str =
    "OUT is one file that needs nothing else: no script, no font, no other host. It has each
account's sums as a table and its periods as bars. OUT is made once STATEMENT is read, and is
left empty where STATEMENT is refused: write to a new file.

Example: tcatool page monday.html monday.txt";

const SPLIT: &str = "Cuts a capture into one for each observation domain";

const SPLIT_AFTER: &str =
    "DIR/D.ipfix gets the messages of domain D, octet by octet and in order. DIR has to be there. No
file is written over: where DIR has a file of such a name, nothing is written. CAPTURE is
read twice, in pieces, and may be of any length; so it is a regular file, no pipe, and isn't to
change meanwhile. It is a path alone, never N@PATH. It has messages of at most 4096 domains. Of
its faults those of messages' headers alone are told, wire 1 to 3. Two lines are printed:
domains N and messages M. --progress tells of the second reading alone.

Example: tcatool split shards link.ipfix";

const ADD: &str =
    "Prints the sum of statements of one plan over different domains or windows of time";

const ADD_AFTER: &str =
    "The statements are of one period and have the same accounts in the same order. The sum is a
statement: its counts, and each account's total and periods, are added up. It is the
statement of all reports together where no two statements have reports of one observation
domain and each account has pairs of the domains of one statement alone; or where they are of
windows of time, a term of each account starts with every window but the first, and no
identity has contents in two. Else, where two statements have reports of one account, it is
not: that account's meter would have seen both.

Example: tcatool add north.txt south.txt";

fn pairs<'a>(alloc: Global) -> Result<Command<'a>, AllocError>
    ensures { IfOk result (λ c. (app_of c ≡ pairs_command)
        × ((fields_of c).has_globals ≡ false)) }
{
    let command = named(alloc, "pairs", PAIRS, PAIRS_AFTER);
    Ok(command.arg(many_words(alloc, "INPUT", MOST_FILES, INPUT))?)
}

fn list<'a>(alloc: Global) -> Result<Command<'a>, AllocError>
    ensures { IfOk result (λ c. (app_of c ≡ list_command)
        × ((fields_of c).has_globals ≡ false)) }
{
    let command = named(alloc, "list", LIST, LIST_AFTER);
    let command = command.arg(option_word(alloc, "plan", "PLAN", "a plan, a TOML file"))?;
    Ok(command.arg(many_words(alloc, "INPUT", MOST_FILES, INPUT))?)
}

fn diff<'a>(alloc: Global) -> Result<Command<'a>, AllocError>
    ensures { IfOk result (λ c. (app_of c ≡ diff_command)
        × ((fields_of c).has_globals ≡ false)) }
{
    let command = named(alloc, "diff", DIFF, DIFF_AFTER);
    let command = command.arg(one_word(alloc, "A", "a file of reports, PATH or N@PATH"))?;
    Ok(command.arg(one_word(alloc, "B", "another one"))?)
}

fn table<'a>(alloc: Global) -> Result<Command<'a>, AllocError>
    ensures { IfOk result (λ c. (app_of c ≡ table_command)
        × ((fields_of c).has_globals ≡ false)) }
{
    let command = named(alloc, "table", TABLE, TABLE_AFTER);
    Ok(command.arg(one_word(alloc, "STATEMENT", STATEMENT))?)
}

fn json<'a>(alloc: Global) -> Result<Command<'a>, AllocError>
    ensures { IfOk result (λ c. (app_of c ≡ json_command)
        × ((fields_of c).has_globals ≡ false)) }
{
    let command = named(alloc, "json", JSON, JSON_AFTER);
    Ok(command.arg(one_word(alloc, "STATEMENT", STATEMENT))?)
}

fn page<'a>(alloc: Global) -> Result<Command<'a>, AllocError>
    ensures { IfOk result (λ c. (app_of c ≡ page_command)
        × ((fields_of c).has_globals ≡ false)) }
{
    let command = named(alloc, "page", PAGE, PAGE_AFTER);
    let command = command.arg(flag(alloc, "progress", PROGRESS))?;
    let command = command.arg(one_word(alloc, "OUT", "the file to write"))?;
    Ok(command.arg(one_word(alloc, "STATEMENT", STATEMENT))?)
}

fn split<'a>(alloc: Global) -> Result<Command<'a>, AllocError>
    ensures { IfOk result (λ c. (app_of c ≡ split_command)
        × ((fields_of c).has_globals ≡ false)) }
{
    let command = named(alloc, "split", SPLIT, SPLIT_AFTER);
    let command = command.arg(flag(alloc, "progress", PROGRESS))?;
    let command = command.arg(one_word(alloc, "DIR", "a folder for the files"))?;
    Ok(command.arg(one_word(alloc, "CAPTURE", "IPFIX messages, one after the other"))?)
}

fn add<'a>(alloc: Global) -> Result<Command<'a>, AllocError>
    ensures { IfOk result (λ c. (app_of c ≡ add_command)
        × ((fields_of c).has_globals ≡ false)) }
{
    let command = named(alloc, "add", ADD, ADD_AFTER);
    Ok(command.arg(many_words(alloc, "STATEMENT", MOST_FILES, STATEMENT))?)
}

// The program without its commands.
fn bare<'a>(alloc: Global) -> Command<'a>
    ensures { app_of result ≡ bare_program }
{
    Command::new(alloc, "tcatool")
        .about(ABOUT)
        .after_help(AFTER)
        .subcommand_required(true)
}

// With the commands over inputs.
fn over_inputs<'a>(alloc: Global, command: Command<'a>) -> Result<Command<'a>, AllocError>
    ensures { IfOk result (λ c. app_of c ≡ over_inputs (app_of command.entry)) }
{
    let command = command.subcommand(pairs(alloc)?)?;
    let command = command.subcommand(list(alloc)?)?;
    let command = command.subcommand(diff(alloc)?)?;
    Ok(command.subcommand(split(alloc)?)?)
}

// With the commands over statements.
fn over_statements<'a>(alloc: Global, command: Command<'a>) -> Result<Command<'a>, AllocError>
    ensures { IfOk result (λ c. app_of c ≡ over_statements (app_of command.entry)) }
{
    let command = command.subcommand(table(alloc)?)?;
    let command = command.subcommand(json(alloc)?)?;
    let command = command.subcommand(page(alloc)?)?;
    Ok(command.subcommand(add(alloc)?)?)
}

/// The program's command line, for clap.
pub(crate) fn program<'a>(alloc: Global) -> Result<Command<'a>, AllocError>
    ensures { IfOk result (λ c. app_of c ≡ program) }
{
    let command = over_inputs(alloc, bare(alloc))?;
    let command = over_statements(alloc, command)?;
    Ok(command)
}
