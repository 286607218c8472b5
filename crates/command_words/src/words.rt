//! The words of the command line, and the request that they lead to.

ghost use Rattle.std.specs.Prelude.{◌≡◌, true, false, None, Some, IfOk, IfErr, MatchOption, map, string_bytes};
ghost use Rattle.faults.specs.Faults.{IfFault};
ghost use Rattle.clap.specs.Words.{app_of, found_of, rows_of, rule_of, subcommand_rows_of};
ghost use Rattle.command_words.specs.Words.{IsOf, asked, bare_app, component_file, dump_rule, file_app, file_rule, is_given, is_taken, number_rule, number_up_to, pipe_app, pipe_by, text_in, program_app, request_of, request_of_rows, run_app, said};

use clap::builder::ValueParser;
use clap::error::ErrorKind;
use clap::{Arg, ArgAction, ArgMatches};
use faults::MemoryOr;
use std::alloc::{AllocError, Global};
use syntax_trees::{Bytes, Seq};

/// What the program is told to do.
#[derive(Clone, Copy)]
pub enum Command<'a> {
    /// Run the component of a file under the script of another file.
    Run {
        /// The component file's name.
        file: &'a str,
        /// The script file's name.
        script: &'a str,
        /// Whether what the run leaves is to be told behind its trace.
        dump: bool,
    },
    /// Read and link the component of a file.
    Check {
        /// The component file's name.
        file: &'a str,
    },
    /// Read and link the component of a file, and tell what can be called.
    Show {
        /// The component file's name.
        file: &'a str,
    },
}

impl<'a> Command<'a> {
    /// The component file's name.
    pub fn file(self) -> &'a str
        ensures { result.now ≡ component_file (said self.entry) }
    {
        match self {
            Command::Run { file, .. } | Command::Check { file } | Command::Show { file } => file,
        }
    }
}

/// What the words ask for.
#[derive(Clone, Copy)]
pub enum Request<'a> {
    /// A command over a component file.
    OfFile(Command<'a>),
    /// Run the pipe of a seed and a count.
    Pipe {
        /// The seed, from 0 to 2,147,483,647.
        seed: u32,
        /// How many numbers go through the pipe, from 0 to 1,000,000.
        count: u32,
    },
}

/// The greatest seed of a pipe.
const MOST_SEED: u32 = 2_147_483_647;

/// How many numbers go through a pipe at most.
const MOST_COUNT: u32 = 1_000_000;

/// The argument that is the name of a file, with its line of help.
fn file_arg<'a>(alloc: Global, name: &'a str, help: &'a str) -> Arg<'a>
    ensures rule { rule_of result ≡ file_rule name.now }
    ensures global { result.global ≡ false }
{
    Arg::new(alloc, name).help(help).required(true)
}

/// The subcommand of this name, whose argument is a component file, with its line of help.
fn subcommand<'a>(
    alloc: Global,
    name: &'a str,
    about: &'a str,
) -> Result<clap::Command<'a>, AllocError>
    ensures { IfOk result (IsOf (file_app name.now)) }
{
    clap::Command::new(alloc, name)
        .about(about)
        .arg(file_arg(alloc, "FILE", "The component file"))
}

/// The option `--dump`.
fn dump_arg<'a>(alloc: Global) -> Arg<'a>
    ensures rule { rule_of result ≡ dump_rule }
    ensures global { result.global ≡ false }
{
    Arg::new(alloc, "dump")
        .long("dump")
        .help("Write the instances and memories at the end of the run")
        .action(ArgAction::SetTrue)
}

/// The subcommand `run`.
fn run_subcommand<'a>(alloc: Global) -> Result<clap::Command<'a>, AllocError>
    ensures { IfOk result (IsOf run_app) }
{
    let run = subcommand(alloc, "run", "Run a component under a script")?;
    run.arg(file_arg(alloc, "SCRIPT", "The script file"))?
        .arg(dump_arg(alloc))
}

/// The argument that is a number up to another one, with its line of help.
fn number_arg<'a>(alloc: Global, name: &'a str, most: u32, help: &'a str) -> Arg<'a>
    ensures rule { rule_of result ≡ number_rule name.now most }
    ensures global { result.global ≡ false }
{
    Arg::new(alloc, name)
        .help(help)
        .required(true)
        .value_parser(ValueParser::unsigned(0, u64::from(most)))
}

/// The subcommand `pipe`.
fn pipe_subcommand<'a>(alloc: Global) -> Result<clap::Command<'a>, AllocError>
    ensures { IfOk result (IsOf pipe_app) }
{
    clap::Command::new(alloc, "pipe")
        .about("Send pseudo-random numbers through a stream and sum them up")
        .arg(number_arg(alloc, "SEED", MOST_SEED, "The seed of the numbers"))?
        .arg(number_arg(alloc, "N", MOST_COUNT, "How many numbers are sent"))
}

/// The program without its subcommands.
fn bare_program<'a>(alloc: Global) -> clap::Command<'a>
    ensures { app_of result ≡ bare_app }
{
    clap::Command::new(alloc, "wcm")
        .about("Run WebAssembly components and print exact traces")
        .subcommand_required(true)
        .disable_help_subcommand(true)
}

/// The program with its subcommands.
fn program<'a>(alloc: Global) -> Result<clap::Command<'a>, AllocError>
    ensures { IfOk result (λ c. app_of c ≡ program_app) }
{
    let run = run_subcommand(alloc)?;
    let check = subcommand(alloc, "check", "Read and link a component")?;
    let show = subcommand(alloc, "show", "Tell what can be called of a component")?;
    let pipe = pipe_subcommand(alloc)?;
    bare_program(alloc)
        .subcommand(run)?
        .subcommand(check)?
        .subcommand(show)?
        .subcommand(pipe)
}

/// The text that an entry has, and the empty one where there is none.
fn text_in<'a>(matches: &ArgMatches<'a>, id: &str) -> &'a str
    ensures { result.now ≡ text_in id.now (rows_of (found_of matches.now)) }
{
    matches.get_str(id).unwrap_or("")
}

/// Whether an option without a value is given.
fn is_given(matches: &ArgMatches<'_>, id: &str) -> bool
    ensures { result ≡ is_given id.now (rows_of (found_of matches.now)) }
{
    text_in(matches, id) == "true"
}

/// The number that a text is, up to another one, and 0 where it is none.
fn number_of(text: &str, most: u32) -> u32
    ensures { result ≡ number_up_to most text.now }
{
    match text.parse::<u32>() {
        Ok(number) if number <= most => number,
        _ => 0,
    }
}

/// The pipe of entries.
fn pipe_in<'a>(entries: &ArgMatches<'a>) -> Request<'a>
    ensures { asked result ≡ pipe_by (rows_of (found_of entries.now)) }
{
    Request::Pipe {
        seed: number_of(text_in(entries, "SEED"), MOST_SEED),
        count: number_of(text_in(entries, "N"), MOST_COUNT),
    }
}

/// The request of matches, if they have a subcommand of the program.
fn request_in<'a>(matches: &ArgMatches<'a>) -> Option<Request<'a>>
    ensures { MatchOption result (request_of_rows (subcommand_rows_of matches.now) ≡ None) (λ r. request_of_rows (subcommand_rows_of matches.now) ≡ Some (asked r)) }
{
    let (name, entries) = matches.subcommand()?;
    match name {
        "run" => Some(Request::OfFile(Command::Run {
            file: text_in(entries, "FILE"),
            script: text_in(entries, "SCRIPT"),
            dump: is_given(entries, "dump"),
        })),
        "check" => Some(Request::OfFile(Command::Check {
            file: text_in(entries, "FILE"),
        })),
        "show" => Some(Request::OfFile(Command::Show {
            file: text_in(entries, "FILE"),
        })),
        "pipe" => Some(pipe_in(entries)),
        _ => None,
    }
}

/// The request that the words lead to, of which the first is the program's name; or, where they are none, the text for
/// the user.
pub fn request_of(alloc: Global, words: &[String]) -> Result<Request<'_>, MemoryOr<Bytes>>
    ensures ok { IfOk result (λ r. (request_of (map string_bytes words.now) ≡ Some (asked r)) × (is_taken (map string_bytes words.now) ≡ true)) }
    ensures refused { IfErr result (λ e. IfFault e (λ text. (request_of (map string_bytes words.now) ≡ None) × (is_taken (map string_bytes words.now) ≡ false))) }
{
    match program(alloc)?.try_get_matches_from(words) {
        Ok(matches) => Ok(request_in(&matches).unwrap()),
        Err(error) => match error.kind() {
            ErrorKind::OutOfMemory => Err(MemoryOr::Memory),
            _ => {
                let text = format!(in alloc; "{error}")?;
                Err(MemoryOr::Fault(Seq::from_vec(text.into_bytes())))
            }
        },
    }
}
