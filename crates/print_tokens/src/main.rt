//! Prints the tokens of the one-file Rust script on standard input, with their errors.
#![tactic(auto)]

mod names;
mod tokens;
mod trouble;

ghost use Rattle.std.specs.Prelude.{◌≡◌, IfOk};
ghost use Rattle.print_tokens.specs.Scanned.{Holds};

use owned_columns::OwnedColumns;
use scanner::Scanner;
use std::alloc::{AllocError, Global};
use std::io::Read;
use std::process::ExitCode;
use syntax_kind::Edition;
use tokens::Tokens;
use trouble::Trouble;

fn read_input(rt: &HostRuntime) -> Result<Vec<u8>, Trouble> {
    let mut bytes = Vec::new(rt.alloc());
    rt.stdin().read_to_end(&mut bytes).map_err(Trouble::Input)?;
    Ok(bytes)
}

// The columns of the scanner's script, in the last edition.
fn lex<'a>(heap: Global, scanner: &'a Scanner) -> Result<OwnedColumns<'a>, AllocError>
    ensures script { IfOk result (λ c. c.script.bytes.now ≡ scanner.now.script.bytes.now) }
    ensures holds { IfOk result (λ c. Holds scanner.now.script.bytes.now c.kinds.items c.starts.items c.errors.items) }
{
    OwnedColumns::lex(heap, scanner, Edition::Edition2024)
}

// The tokens of the scanner's script, to be printed: the columns hold them, and no others.
fn tokens_of<'a>(scanner: &Scanner, columns: &'a OwnedColumns) -> Tokens<'a>
    requires script { columns.now.script.bytes.now ≡ scanner.now.script.bytes.now }
    requires holds { Holds scanner.now.script.bytes.now columns.now.kinds.items columns.now.starts.items columns.now.errors.items }
    ensures script { result.0.script.bytes.now ≡ scanner.now.script.bytes.now }
    ensures kinds { result.0.kinds.now ≡ columns.now.kinds.items }
    ensures starts { result.0.starts.now ≡ columns.now.starts.items }
    ensures errors { result.0.errors.now ≡ columns.now.errors.items }
{
    Tokens(columns.read())
}

// The tokens of any script, also of one whose frontmatter has a fault.
fn print_tokens(rt: &HostRuntime, bytes: &[u8]) -> Result<(), Trouble> {
    let scanner = Scanner::new(bytes)?;
    let columns = lex(rt.alloc(), &scanner)?;
    let tokens = tokens_of(&scanner, &columns);
    rt.println(tokens).map_err(Trouble::Output)
}

fn run(rt: &HostRuntime) -> Result<(), Trouble> {
    print_tokens(rt, read_input(rt)?.as_slice())
}

fn main(rt: HostRuntime) -> ExitCode {
    match run(&rt) {
        Ok(()) => ExitCode::SUCCESS,
        Err(trouble) => {
            let _ = eprint!(rt; "{trouble}");
            ExitCode::FAILURE
        }
    }
}
