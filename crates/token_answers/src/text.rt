// The lines that are printed for answers.
ghost use Rattle.std.specs.Prelude.{◌<◌, ◌≤◌};
ghost use Rattle.std.specs.Iterator.{IsFinite};
ghost use Rattle.lexed_str.specs.Columns.{tokens};

use input::Input;
use lexed_str::{LexError, LexedStr};
use shown::After;
use std::fmt;
use syntax_kind::kinds::EOF;

// The kinds and starts, the end's last, and the errors.
#[derive(Drop)]
pub struct ColumnsText<'a>(pub LexedStr<'a>);

// The kinds, the contextual kinds, and a mark for each entry that is joint.
#[derive(Drop)]
pub struct InputText<'a, 'b>(pub &'a Input<'b>);

#[derive(Clone, Copy)]
pub struct SingleText(pub Option<(u16, Option<u16>)>);

#[derive(Clone, Copy)]
struct ErrorText(LexError);

// The items with commas between them.
fn write_row<W: fmt::Write, I: Iterator + Drop>(
    f: &mut fmt::Formatter<W>,
    mut row: I,
) -> fmt::Result
where
    I::Item: fmt::Display + Drop,
    requires can { I.can_next row }
    requires ends { IsFinite (I.remaining row) }
{
    let Some(first) = row.next() else {
        return Ok(());
    };
    write!(f, "{first}")?;
    for x in row {
        write!(f, ",{x}")?;
    }
    Ok(())
}

// An entry's kind and start: a row has no entry past the end's.
fn kind_of(lexed: &LexedStr, i: usize) -> u16
    requires { i ≤ tokens lexed.now.kinds.now }
{
    lexed.kind(i).unwrap_or(EOF)
}

fn start_of(lexed: &LexedStr, i: usize) -> usize
    requires { i ≤ tokens lexed.now.kinds.now }
{
    let Ok(start) = lexed.text_start(i) else {
        unreachable()
    };
    start
}

impl fmt::Display for ErrorText {
    fn fmt<W: fmt::Write>(&self, f: &mut fmt::Formatter<W>) -> fmt::Result {
        let LexError { token, code } = self.0;
        write!(f, "{token}:{code}")
    }
}

impl fmt::Display for ColumnsText<'_> {
    fn fmt<W: fmt::Write>(&self, f: &mut fmt::Formatter<W>) -> fmt::Result {
        let lexed = &self.0;
        let entries = 0..=lexed.len();
        write_row(f, entries.map(|i| kind_of(lexed, i)))?;
        f.write_str("|")?;
        let entries = 0..=lexed.len();
        write_row(f, entries.map(|i| start_of(lexed, i)))?;
        f.write_str("|")?;
        if lexed.errors().is_empty() {
            return f.write_str("-");
        }
        write_row(f, lexed.errors().iter().map(|error| ErrorText(*error)))
    }
}

// The kinds of an entry: a row has no entry that the input does not have.
fn input_kind(input: &Input, i: usize) -> u16
    requires { i < input.now.len }
{
    input.kind(i)
}

fn input_contextual_kind(input: &Input, i: usize) -> u16
    requires { i < input.now.len }
{
    input.contextual_kind(i)
}

impl fmt::Display for InputText<'_, '_> {
    fn fmt<W: fmt::Write>(&self, f: &mut fmt::Formatter<W>) -> fmt::Result {
        let input = self.0;
        let len = input.len();
        if len == 0 {
            return f.write_str("-|-|-");
        }
        write_row(f, (0..len).map(|i| input_kind(input, i)))?;
        f.write_str("|")?;
        write_row(f, (0..len).map(|i| input_contextual_kind(input, i)))?;
        f.write_str("|")?;
        // An input is asked for an entry by its number.
        for i in 0..len {
            let joint = u8::from(matches!(input.is_joint(i), Ok(true)));
            write!(f, "{joint}")?;
        }
        Ok(())
    }
}

impl fmt::Display for SingleText {
    fn fmt<W: fmt::Write>(&self, f: &mut fmt::Formatter<W>) -> fmt::Result {
        match self.0 {
            None => f.write_str("-"),
            Some((kind, code)) => {
                let code = After(":", code);
                write!(f, "{kind}{code}")
            }
        }
    }
}
