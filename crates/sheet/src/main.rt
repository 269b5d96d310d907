//! Reads a one-file Rust script and prints the parts that it found, or why there are none.
#![tactic(auto)]

mod command;
mod report;
mod trouble;

use command::Command;
use report::Report;
use std::fmt::Display;
use std::io::Read;
use std::process::ExitCode;
use std::{env, fs};
use trouble::Trouble;

const HELP: &str = "\
usage: sheet FILE    read the script FILE
       sheet         read the script from standard input
       sheet --help  print this text

Prints the length of the script and where its parts stand, in bytes: the
shebang, the opening fence, its info string, the frontmatter, the closing
fence and the content. A part that is not there is 'none'.

Where a fence breaks the rules, prints the fault by its letter, what it means,
where it is and the fences to compare it with. Where the input is no script,
prints why it was refused. Both end with status 1.
";

fn read_command(rt: &HostRuntime) -> Result<Command, Trouble> {
    let mut args = env::args(rt).map_err(Trouble::Arguments)?.skip(1);
    let first = args.next();
    Ok(Command::new(first, args.next().is_some())?)
}

// Every line that is printed goes through here.
fn print_text(rt: &HostRuntime, text: impl Display + Drop) -> Result<(), Trouble> {
    rt.print(text).map_err(Trouble::Output)
}

// The same lines as in `print_tokens`: a crate for them would be longer than they are, and the error is the program's own.
fn read_input(rt: &HostRuntime) -> Result<Vec<u8>, Trouble> {
    let mut bytes = Vec::new(rt.alloc());
    rt.stdin().read_to_end(&mut bytes).map_err(Trouble::Input)?;
    Ok(bytes)
}

fn read_file(rt: &HostRuntime, path: String) -> Result<Vec<u8>, Trouble> {
    match fs::read(rt, path.as_str()) {
        Ok(bytes) => Ok(bytes),
        Err(why) => Err(Trouble::File(path, why)),
    }
}

// A script with a fault is an error of the input: it is reported, and the program fails.
fn print_report(rt: &HostRuntime, bytes: &[u8]) -> Result<(), Trouble> {
    let report = Report::new(bytes);
    print_text(rt, format_args!("{report}\n"))?;
    match report.found {
        Ok(_) => Ok(()),
        Err(_) => Err(Trouble::Reported),
    }
}

fn run(rt: &HostRuntime) -> Result<(), Trouble> {
    match read_command(rt)? {
        Command::Help => print_text(rt, HELP),
        Command::File(path) => print_report(rt, read_file(rt, path)?.as_slice()),
        Command::Input => print_report(rt, read_input(rt)?.as_slice()),
    }
}

fn main(rt: HostRuntime) -> ExitCode {
    match run(&rt) {
        Ok(()) => ExitCode::SUCCESS,
        Err(trouble) => {
            let _ = eprint!(rt; "{trouble}");
            ExitCode::FAILURE
        }
    }
}
