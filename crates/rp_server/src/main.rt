//! The program: a repository of STEP product models that several partners share.
#![tactic(auto)]

mod fault;
mod page;
mod progress;
mod snapshot;

use fault::Fault;
use page::PageFiles;
use plain_data::Failure;
use progress::Progress;
use rp_command::{Command, Delivery, Run, Service, Telling, command_of};
use rp_config::{
    Shown, is_read_again, partner_twice_in, schema_twice, schema_twice_in, token_twice_in,
    what_begins, why_unreadable, wrong_place,
};
use rp_delivery::{Asked, Form};
use rp_files::{FromFiles, LoadFault, file_bytes};
use rp_program::{
    Batched, Done, Ends, Fault as CommandFault, FilePlaces, Snapshots, StartFault, TokenFault,
    Verdict, bad_token_in, batch, check, explain, serve, status_of, validate,
};
use rp_repo::{FromReader, NewFault, ToWriter};
use snapshot::kind_of;
use std::alloc::Global;
use std::io::IsTerminal;
use std::net::Net;
use std::process::ExitCode;
use std::rt::{Clock, Env, Files};
use std::{env, fmt, io};

fn main(rt: HostRuntime) -> ExitCode {
    let ended = run(&rt, rt.stderr().is_terminal());
    if let Err(fault) = &ended {
        let _ = eprintln!(rt; "rp_server: {fault}");
    }
    ExitCode::from(status_of(&ended))
}

/// Does what the command line asks for. Standard error is a terminal or not.
fn run<R: AllocGlobal + Files + Env + Print + Eprint + Input + Clock + Net>(
    rt: &R,
    terminal: bool,
) -> Result<Done, Fault> {
    let alloc = rt.alloc();
    let Ok(args) = env::args(rt) else {
        return Err(Fault::Words);
    };
    let words: Vec<String> = args.collect(alloc)?;
    match command_of(alloc, words.as_slice())? {
        Command::Help(text) => match text.print(rt) {
            Ok(()) => Ok(Done::Helped),
            Err(_) => Err(Fault::from(CommandFault::Write)),
        },
        Command::Batch(run) => {
            let ended = batch_of(rt, &run);
            told(rt, Naming::Config(run.config, run.save), ended)
        }
        Command::Serve(service) => {
            let ended = serve_of(rt, &service);
            told(rt, Naming::Config(service.config, service.save), ended)
        }
        Command::Check(path) => {
            let mut writer = ToWriter::new(io::writer(rt));
            let ended = check(alloc, &FromFiles::new(rt), path, &mut writer);
            told_of_schema(rt, path, ended)
        }
        Command::Explain(path) => {
            let mut writer = ToWriter::new(io::writer(rt));
            let ended = explain(alloc, &FromFiles::new(rt), path, &mut writer);
            told_of_schema(rt, path, ended)
        }
        Command::Validate(delivery) => {
            let ended = validate_of(rt, terminal, &delivery);
            told(rt, Naming::Paths(&delivery.schemas), ended)
        }
    }
}

/// How many culprits of a check are told.
const CULPRITS: usize = 50;

/// Validates the files of a delivery. A terminal on standard error is told how far it is.
fn validate_of<R: AllocGlobal + Files + Print + Eprint + Clock>(
    rt: &R,
    terminal: bool,
    delivery: &Delivery<'_>,
) -> Result<Done, CommandFault> {
    let asked = Asked {
        schemas: &delivery.schemas,
        files: &delivery.files,
        form: match delivery.telling {
            Telling::Text => Form::Text(CULPRITS),
            Telling::All => Form::Text(usize::MAX),
            Telling::Quiet => Form::Quiet,
            Telling::Json => Form::Json,
        },
        page: delivery.page,
    };
    let mut pages = PageFiles::new(rt);
    let mut progress = Progress::new(rt, terminal);
    let mut writer = ToWriter::new(io::writer(rt));
    let files = FromFiles::new(rt);
    let ended = validate(
        rt.alloc(),
        &files,
        &asked,
        &mut writer,
        &mut progress,
        &mut pages,
    );
    progress.end();
    ended
}

/// Answers the lines of standard input, by the repository that the configuration tells.
fn batch_of<R: AllocGlobal + Files + Print + Input>(
    rt: &R,
    run: &Run<'_>,
) -> Result<Done, CommandFault> {
    let snapshots = Snapshots {
        load: run.load,
        save: run.save,
    };
    let mut reader = FromReader::new(rt.reader());
    let mut writer = ToWriter::new(io::writer(rt));
    let Batched { ended, left } = batch(
        rt.alloc(),
        &FromFiles::new(rt),
        run.config,
        snapshots,
        &mut FilePlaces::new(rt),
        &mut reader,
        &mut writer,
    );
    drop(left);
    ended
}

/// Serves connections, by the repository that the configuration tells.
fn serve_of<R: AllocGlobal + Files + Eprint + Input + Clock + Net>(
    rt: &R,
    service: &Service<'_>,
) -> Result<Done, CommandFault> {
    let snapshots = Snapshots {
        load: service.load,
        save: service.save,
    };
    let ends = Ends {
        connections: service.connections,
        input: service.until_input_ends,
    };
    serve(
        rt.alloc(),
        &FromFiles::new(rt),
        service.config,
        snapshots,
        rt,
        service.address,
        ends,
    )
}

/// How a check of the file of this path ended, and where it refused the text what the text is.
fn told_of_schema<R: AllocGlobal + Files + Eprint>(
    rt: &R,
    path: &str,
    ended: Result<Done, CommandFault>,
) -> Result<Done, Fault> {
    if let Ok(Done::Checked(Verdict::Refused)) = &ended {
        if let Some(words) = what_begins(rt, path) {
            let _ = eprintln!(rt; "rp_server: {} is no schema: {words}", Shown(path));
        }
    }
    told(rt, Naming::Nothing, ended)
}

/// What names the schemas of a command.
#[derive(Clone, Copy)]
enum Naming<'a> {
    Nothing,
    /// The configuration at the first path; a snapshot is saved at the second, if there is one.
    Config(&'a str, Option<&'a str>),
    /// The command line, by these paths.
    Paths(&'a [&'a str]),
}

/// How a command ended, and beside a fault what more can be told of it.
fn told<R: AllocGlobal + Files>(
    rt: &R,
    naming: Naming<'_>,
    ended: Result<Done, CommandFault>,
) -> Result<Done, Fault> {
    match ended {
        Ok(done) => Ok(done),
        Err(fault) => {
            let words = beside(rt, naming, &fault)?;
            Err(Fault::Command(fault, words))
        }
    }
}

/// What is told beside a fault of a command. Files are read once more for it, so that what is loaded is decided without it.
fn beside<R: AllocGlobal + Files>(
    rt: &R,
    naming: Naming<'_>,
    fault: &CommandFault,
) -> Result<Option<String>, Fault> {
    match fault {
        CommandFault::Start(Failure::Fault(fault)) => beside_start(rt, naming, fault),
        CommandFault::Unsaved(_) => match naming {
            Naming::Config(_, Some(path)) => Ok(Some(String::from_str(rt.alloc(), path)?)),
            _ => Ok(None),
        },
        _ => Ok(None),
    }
}

/// What is told beside the fault of what a command works on.
fn beside_start<R: AllocGlobal + Files>(
    rt: &R,
    naming: Naming<'_>,
    fault: &StartFault,
) -> Result<Option<String>, Fault> {
    match fault {
        StartFault::Load(fault) => beside_file(rt, fault),
        StartFault::New(fault) => match naming {
            Naming::Nothing => Ok(None),
            Naming::Config(path, _) => beside_config(rt, path, *fault),
            Naming::Paths(paths) => beside_paths(rt, paths, *fault),
        },
        StartFault::Snapshot(_, lack) => Ok(kind_of(rt.alloc(), lack)?),
        StartFault::Tokens(fault) => match naming {
            Naming::Config(path, _) => beside_tokens(rt, path, *fault),
            _ => Ok(None),
        },
    }
}

/// What is told beside a fault of all that the configuration at this path names.
fn beside_config<R: AllocGlobal + Files>(
    rt: &R,
    path: &str,
    fault: NewFault,
) -> Result<Option<String>, Fault> {
    let (alloc, folder) = (rt.alloc(), FromFiles::new(rt));
    if !is_read_again(rt, path) {
        return Ok(None);
    }
    match fault {
        NewFault::TwoPartners => found(partner_twice_in(alloc, &folder, path)),
        NewFault::TwoSchemas => found(schema_twice_in(alloc, &folder, path)),
        _ => Ok(None),
    }
}

/// What is told beside a fault of the tokens that the configuration at this path names: whose they are.
fn beside_tokens<R: AllocGlobal + Files>(
    rt: &R,
    path: &str,
    fault: TokenFault,
) -> Result<Option<String>, Fault> {
    let (alloc, folder) = (rt.alloc(), FromFiles::new(rt));
    if !is_read_again(rt, path) {
        return Ok(None);
    }
    match fault {
        TokenFault::BadToken => found(bad_token_in(alloc, &folder, path)),
        TokenFault::TwoTokens => found(token_twice_in(alloc, &folder, path)),
    }
}

/// What is told beside a fault of all schemas at these paths.
fn beside_paths<R: AllocGlobal + Files>(
    rt: &R,
    paths: &[&str],
    fault: NewFault,
) -> Result<Option<String>, Fault> {
    match fault {
        NewFault::TwoSchemas if paths.iter().all(|path| is_read_again(rt, path)) => {
            found(schema_twice(rt.alloc(), &FromFiles::new(rt), paths))
        }
        _ => Ok(None),
    }
}

/// What was found by another look. Where that came to a fault, the files are others by now, and nothing is told.
fn found(looked: Result<Option<String>, Failure<LoadFault>>) -> Result<Option<String>, Fault> {
    match looked {
        Ok(words) => Ok(words),
        Err(Failure::Fault(_)) => Ok(None),
        Err(Failure::NoMemory) => Err(Fault::NoMemory),
    }
}

/// What is told beside a fault of a file.
fn beside_file<R: AllocGlobal + Files>(rt: &R, fault: &LoadFault) -> Result<Option<String>, Fault> {
    match fault {
        LoadFault::Unreadable(path) => text_of(rt.alloc(), why_unreadable(rt, path.as_str())),
        LoadFault::TooLarge(_) => Ok(None),
        LoadFault::Config(path) => place_in(rt, path.as_str()),
        LoadFault::Schema(path, _) => text_of(rt.alloc(), what_begins(rt, path.as_str())),
    }
}

fn text_of<T: fmt::Display + Drop>(
    alloc: Global,
    words: Option<T>,
) -> Result<Option<String>, Fault> {
    match words {
        Some(words) => Ok(Some(format!(in alloc; "{words}")?)),
        None => Ok(None),
    }
}

/// Where the file of this path is wrong, which is no configuration.
fn place_in<R: AllocGlobal + Files>(rt: &R, path: &str) -> Result<Option<String>, Fault> {
    if !is_read_again(rt, path) {
        return Ok(None);
    }
    let alloc = rt.alloc();
    let bytes = file_bytes(alloc, &FromFiles::new(rt), path)?;
    Ok(wrong_place(alloc, &bytes)?)
}
