//! What the command line asks for.
use crate::fault::CommandLineFault;
use crate::texts::{
    ABOUT, BATCH_ABOUT, BATCH_AFTER, CHECK_ABOUT, CHECK_AFTER, SERVE_ABOUT, SERVE_AFTER,
    VALIDATE_ABOUT, VALIDATE_AFTER, VERSION,
};
use clap::error::ErrorKind;
use clap::{Arg, ArgAction, ArgMatches, Error};
use std::alloc::{AllocError, Global};
use std::net::SocketAddr;

/// How many files are validated at most.
const MOST_FILES: usize = 50;

/// What the command line asks for.
#[derive(Drop)]
pub enum Command<'a> {
    /// A text of help, which clap has as an error.
    Help(Error),
    /// To answer the lines of standard input.
    Batch(Run<'a>),
    /// To serve connections.
    Serve(Service<'a>),
    /// To tell whether the file of this path is a schema.
    Check(&'a str),
    /// The same, with the lines of the text.
    Explain(&'a str),
    /// To validate files.
    Validate(Delivery<'a>),
}

/// What is told of files that are validated.
#[derive(Clone, Copy, PartialEq, Eq)]
pub enum Telling {
    /// What came of each check, with the first culprits of each rule.
    Text,
    /// The same with all culprits.
    All,
    /// The verdict alone.
    Quiet,
    /// The reply as JSON.
    Json,
}

/// Files that are to be validated by schemas: the paths of both.
#[derive(Drop)]
pub struct Delivery<'a> {
    pub schemas: Vec<&'a str>,
    pub files: Vec<&'a str>,
    pub telling: Telling,
    /// The file into which a page of it is written, if one is wanted.
    pub page: Option<&'a str>,
}

/// The lines that are to be answered: the paths of what is read and saved.
#[derive(Clone, Copy, Drop)]
pub struct Run<'a> {
    pub config: &'a str,
    /// The snapshot that it begins with, if there is one.
    pub load: Option<&'a str>,
    /// Where a snapshot is saved, if one is wanted.
    pub save: Option<&'a str>,
}

/// The connections that are to be served.
#[derive(Clone, Copy, Drop)]
pub struct Service<'a> {
    /// The path of the configuration.
    pub config: &'a str,
    /// That of the snapshot that it begins with, if there is one.
    pub load: Option<&'a str>,
    /// Where a snapshot is saved, if one is wanted.
    pub save: Option<&'a str>,
    /// Where they come.
    pub address: SocketAddr,
    /// How many, if there is an end to them.
    pub connections: Option<u32>,
    /// Whether serving ends with standard input.
    pub until_input_ends: bool,
}

/// The configuration that a command is given.
fn config_option<'a>(alloc: Global) -> Arg<'a> {
    Arg::new(alloc, "config")
        .long("config")
        .value_name("FILE")
        .help("The configuration, as shown below")
        .required(true)
        .action(ArgAction::Set)
}

/// A command with `--load` and `--save` too; when it saves is told so.
fn with_snapshots<'a>(
    alloc: Global,
    command: clap::Command<'a>,
    when: &'a str,
) -> Result<clap::Command<'a>, AllocError> {
    let load = Arg::new(alloc, "load")
        .long("load")
        .value_name("FILE")
        .help("Begins with the snapshot in FILE")
        .action(ArgAction::Set);
    let save = Arg::new(alloc, "save")
        .long("save")
        .value_name("FILE")
        .help(when)
        .action(ArgAction::Set);
    command.arg(load)?.arg(save)
}

/// `batch`, with its arguments.
fn batch_command<'a>(alloc: Global) -> Result<clap::Command<'a>, AllocError> {
    let command = clap::Command::new(alloc, "batch")
        .about(BATCH_ABOUT)
        .after_help(BATCH_AFTER)
        .arg(config_option(alloc))?;
    with_snapshots(alloc, command, "Saves a snapshot into FILE at the end")
}

/// `serve` with its configuration and its address.
fn with_address<'a>(alloc: Global) -> Result<clap::Command<'a>, AllocError> {
    let address = Arg::new(alloc, "listen")
        .long("listen")
        .value_name("ADDRESS")
        .help("An IP address with a port, as 127.0.0.1:8080 or [::1]:8080")
        .required(true)
        .action(ArgAction::Set);
    clap::Command::new(alloc, "serve")
        .about(SERVE_ABOUT)
        .after_help(SERVE_AFTER)
        .arg(config_option(alloc))?
        .arg(address)
}

/// The same with its snapshots.
fn with_saves<'a>(alloc: Global) -> Result<clap::Command<'a>, AllocError> {
    let when = "Saves a snapshot into FILE, while it serves and at the end";
    with_snapshots(alloc, with_address(alloc)?, when)
}

/// The same with `--connections`.
fn with_connections<'a>(alloc: Global) -> Result<clap::Command<'a>, AllocError> {
    let connections = Arg::new(alloc, "connections")
        .long("connections")
        .value_name("N")
        .help("Ends after N connections, 1 to 4294967295")
        .action(ArgAction::Set);
    with_saves(alloc)?.arg(connections)
}

/// `serve`, with its arguments.
fn serve_command<'a>(alloc: Global) -> Result<clap::Command<'a>, AllocError> {
    let until = Arg::new(alloc, "until-input-ends")
        .long("until-input-ends")
        .help("Ends when standard input has ended")
        .action(ArgAction::SetTrue);
    with_connections(alloc)?.arg(until)
}

/// `check`, with its arguments.
fn check_command<'a>(alloc: Global) -> Result<clap::Command<'a>, AllocError> {
    let file = Arg::new(alloc, "file")
        .value_name("FILE")
        .help("The schema's file")
        .required(true)
        .action(ArgAction::Set);
    let explain = Arg::new(alloc, "explain")
        .long("explain")
        .help("Shows the lines of the text")
        .action(ArgAction::SetTrue);
    clap::Command::new(alloc, "check")
        .about(CHECK_ABOUT)
        .after_help(CHECK_AFTER)
        .arg(explain)?
        .arg(file)
}

/// The paths of `validate`.
fn with_paths<'a>(alloc: Global) -> Result<clap::Command<'a>, AllocError> {
    let schema = Arg::new(alloc, "schema")
        .long("schema")
        .value_name("FILE")
        .help("A schema's file; several by as many --schema")
        .required(true)
        .action(ArgAction::Append);
    let files = Arg::new(alloc, "file")
        .value_name("FILE")
        .help("Files to validate, at most 50")
        .required(true)
        .num_args(1..=MOST_FILES)
        .action(ArgAction::Append);
    clap::Command::new(alloc, "validate")
        .about(VALIDATE_ABOUT)
        .after_help(VALIDATE_AFTER)
        .arg(schema)?
        .arg(files)
}

/// `--quiet`, which goes without `--json`.
fn quiet_flag<'a>(alloc: Global) -> Result<Arg<'a>, AllocError> {
    Arg::new(alloc, "quiet")
        .long("quiet")
        .help("Prints the verdict alone")
        .action(ArgAction::SetTrue)
        .conflicts_with("json")
}

/// `--all`, which goes without the other two.
fn all_flag<'a>(alloc: Global) -> Result<Arg<'a>, AllocError> {
    Arg::new(alloc, "all")
        .long("all")
        .help("Shows all culprits of a rule, and not 50 alone")
        .action(ArgAction::SetTrue)
        .conflicts_with("json")?
        .conflicts_with("quiet")
}

/// `validate` with its paths and `--json`.
fn with_json<'a>(alloc: Global) -> Result<clap::Command<'a>, AllocError> {
    let json = Arg::new(alloc, "json")
        .long("json")
        .help("Prints the reply alone, a line of JSON")
        .action(ArgAction::SetTrue);
    with_paths(alloc)?.arg(json)
}

/// The same with `--html`.
fn with_html<'a>(alloc: Global) -> Result<clap::Command<'a>, AllocError> {
    let html = Arg::new(alloc, "html")
        .long("html")
        .value_name("FILE")
        .help("Writes a page with all culprits into FILE too")
        .action(ArgAction::Set);
    with_json(alloc)?.arg(html)
}

/// `validate`, with its arguments.
fn validate_command<'a>(alloc: Global) -> Result<clap::Command<'a>, AllocError> {
    let command = with_html(alloc)?;
    let command = command.arg(quiet_flag(alloc)?)?;
    command.arg(all_flag(alloc)?)
}

/// The program, with `batch` alone. It is apart so that few commands are in hand where memory may be wanting.
fn with_batch<'a>(alloc: Global) -> Result<clap::Command<'a>, AllocError> {
    let batch = batch_command(alloc)?;
    clap::Command::new(alloc, "rp_server")
        .about(ABOUT)
        .version(VERSION)
        .after_help("Type rp_server batch --help for the configuration and the requests.")
        .subcommand_required(true)
        .subcommand(batch)
}

/// The program, with `check` too.
fn with_check<'a>(alloc: Global) -> Result<clap::Command<'a>, AllocError> {
    let check = check_command(alloc)?;
    with_batch(alloc)?.subcommand(check)
}

/// The program, with `serve` too.
fn with_serve<'a>(alloc: Global) -> Result<clap::Command<'a>, AllocError> {
    let serve = serve_command(alloc)?;
    with_check(alloc)?.subcommand(serve)
}

/// The program, with all commands.
fn whole<'a>(alloc: Global) -> Result<clap::Command<'a>, AllocError> {
    let validate = validate_command(alloc)?;
    with_serve(alloc)?.subcommand(validate)
}

/// What these words ask for, the program's own name first.
pub fn command_of<'a>(alloc: Global, words: &'a [String]) -> Result<Command<'a>, CommandLineFault> {
    match whole(alloc)?.try_get_matches_from(words) {
        Ok(matches) => asked_in(alloc, &matches)?.ok_or(CommandLineFault::Incomplete),
        Err(error) if error.use_stderr() => Err(fault_of(alloc, &error)),
        Err(error) => Ok(Command::Help(error)),
    }
}

/// What words that parse ask for.
fn asked_in<'a>(
    alloc: Global,
    matches: &ArgMatches<'a>,
) -> Result<Option<Command<'a>>, CommandLineFault> {
    match matches.subcommand() {
        Some(("validate", found)) => delivery_in(alloc, found),
        Some(("serve", found)) => Ok(Some(Command::Serve(service_in(found)?))),
        Some(("batch", found)) => run_in(found),
        Some((name, found)) => Ok(one_file_in(name, found)),
        None => Ok(None),
    }
}

/// Where a snapshot is saved, if one is wanted: not over the configuration.
fn save_in<'a>(found: &ArgMatches<'a>, config: &str) -> Result<Option<&'a str>, CommandLineFault> {
    let save = found.get_str("save");
    if save.is_some_and(|path| path == config) {
        return Err(CommandLineFault::SaveOverConfig);
    }
    Ok(save)
}

/// The lines that `batch` is asked for; nothing where there is no configuration.
fn run_in<'a>(found: &ArgMatches<'a>) -> Result<Option<Command<'a>>, CommandLineFault> {
    let Some(config) = found.get_str("config") else {
        return Ok(None);
    };
    Ok(Some(Command::Batch(Run {
        config,
        load: found.get_str("load"),
        save: save_in(found, config)?,
    })))
}

/// What a command of this name asks for, which takes one file.
fn one_file_in<'a>(name: &str, found: &ArgMatches<'a>) -> Option<Command<'a>> {
    match name {
        "check" if found.get_flag("explain") => found.get_str("file").map(Command::Explain),
        "check" => found.get_str("file").map(Command::Check),
        _ => None,
    }
}

/// The connections that `serve` is asked for.
fn service_in<'a>(found: &ArgMatches<'a>) -> Result<Service<'a>, CommandLineFault> {
    let (Some(config), Some(address)) = (found.get_str("config"), found.get_str("listen")) else {
        return Err(CommandLineFault::Incomplete);
    };
    let Ok(address) = address.parse::<SocketAddr>() else {
        return Err(CommandLineFault::NoAddress);
    };
    let connections = match found.get_str("connections") {
        Some(digits) => Some(number_of(digits).ok_or(CommandLineFault::NoNumber)?),
        None => None,
    };
    Ok(Service {
        config,
        load: found.get_str("load"),
        save: save_in(found, config)?,
        address,
        connections,
        until_input_ends: found.get_flag("until-input-ends"),
    })
}

/// The number that these digits are, from 1 on.
fn number_of(digits: &str) -> Option<u32> {
    if !digits.bytes().all(|byte| byte.is_ascii_digit()) {
        return None;
    }
    match digits.parse::<u32>() {
        Ok(0) | Err(_) => None,
        Ok(number) => Some(number),
    }
}

/// The paths that these words have at a name.
fn paths_in<'a>(
    alloc: Global,
    found: &ArgMatches<'a>,
    name: &str,
) -> Result<Vec<&'a str>, AllocError> {
    let mut paths = Vec::new(alloc);
    if let Some(given) = found.get_strs(name) {
        for path in given {
            paths.push(*path)?;
        }
    }
    Ok(paths)
}

/// What is to be told of files that are validated.
fn telling_in(found: &ArgMatches<'_>) -> Telling {
    if found.get_flag("json") {
        Telling::Json
    } else if found.get_flag("quiet") {
        Telling::Quiet
    } else if found.get_flag("all") {
        Telling::All
    } else {
        Telling::Text
    }
}

/// The files that `validate` is asked for; nothing where there are none, or too many.
fn delivery_in<'a>(
    alloc: Global,
    found: &ArgMatches<'a>,
) -> Result<Option<Command<'a>>, CommandLineFault> {
    let schemas = paths_in(alloc, found, "schema")?;
    let files = paths_in(alloc, found, "file")?;
    let page = found.get_str("html");
    if schemas.is_empty() || files.is_empty() || files.len() > MOST_FILES {
        return Ok(None);
    }
    if is_among(page, &schemas) || is_among(page, &files) {
        return Err(CommandLineFault::PageOverInput);
    }
    Ok(Some(Command::Validate(Delivery {
        schemas,
        files,
        telling: telling_in(found),
        page,
    })))
}

/// Whether there is a page, and its path is one of these.
fn is_among(page: Option<&str>, paths: &[&str]) -> bool {
    page.is_some_and(|page| paths.iter().any(|path| *path == page))
}

/// What is wrong with words that don't parse.
fn fault_of(alloc: Global, error: &Error) -> CommandLineFault {
    if error.kind() == ErrorKind::OutOfMemory {
        return CommandLineFault::NoMemory;
    }
    match line_of(alloc, error) {
        Ok(line) => CommandLineFault::Wrong(line),
        Err(_) => CommandLineFault::NoMemory,
    }
}

/// What an error says, in one line: the lines of its text up to an empty one, without its first word.
fn line_of(alloc: Global, error: &Error) -> Result<String, AllocError> {
    let text = format!(in alloc; "{error}")?;
    let text = text.as_str();
    let text = text.strip_prefix("error: ").unwrap_or(text);
    let mut line = String::new(alloc);
    for part in text.lines() {
        let part = part.trim();
        if part.is_empty() {
            break;
        }
        if !line.is_empty() {
            line.push(' ')?;
        }
        line.push_str(part)?;
    }
    Ok(line)
}
