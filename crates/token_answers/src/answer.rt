// The answers.
use crate::failure::Failure;
use crate::question::{Asked, Question};
use crate::text::{ColumnsText, InputText, SingleText};
use converter::single_token;
use input::{Input, to_input};
use lexed_str::LexedStr;
use owned_columns::OwnedColumns;
use std::alloc::Global;
use syntax_kind::Edition;
use tape::Tape;

// Writes the answer to a question; nothing where it is refused.
pub fn answer(heap: Global, question: &Question, output: &mut String) -> Result<(), Failure> {
    let tape = Tape::new(
        question.script.as_slice(),
        question.recorded.marks.as_slice(),
        question.recorded.faults.as_slice(),
        question.recorded.shebang,
    )?;
    match question.asked {
        Asked::Columns => answer_columns(heap, &tape, question.edition, output),
        Asked::Input => answer_input(heap, &tape, question.edition, output),
        Asked::Single => answer_single(&tape, question.edition, output),
    }
}

fn answer_single(tape: &Tape, edition: u8, output: &mut String) -> Result<(), Failure> {
    let text = SingleText(single_token(tape, edition)?);
    write!(output, "{text}")?;
    Ok(())
}

fn answer_columns(
    heap: Global,
    tape: &Tape,
    edition: u8,
    output: &mut String,
) -> Result<(), Failure> {
    let columns = OwnedColumns::lex(heap, tape, Edition::try_from(edition)?)?;
    let text = ColumnsText(columns.read());
    write!(output, "{text}")?;
    Ok(())
}

fn answer_input(
    heap: Global,
    tape: &Tape,
    edition: u8,
    output: &mut String,
) -> Result<(), Failure> {
    let columns = OwnedColumns::lex(heap, tape, Edition::try_from(edition)?)?;
    let lexed = columns.read();
    write_input(heap, &lexed, edition, output)
}

// The parser's input of the columns.
fn write_input(
    heap: Global,
    lexed: &LexedStr,
    edition: u8,
    output: &mut String,
) -> Result<(), Failure> {
    let len = lexed.len();
    let mut kinds = vec![in heap; 0u16; len]?;
    let mut joint = vec![in heap; 0u64; len.div_ceil(64)]?;
    let mut contextual_kinds = vec![in heap; 0u16; len]?;
    let mut editions = vec![in heap; 0u8; len]?;
    let mut input = Input::new(
        kinds.as_mut_slice(),
        joint.as_mut_slice(),
        contextual_kinds.as_mut_slice(),
        editions.as_mut_slice(),
    );
    to_input(lexed, edition, &mut input)?;
    let text = InputText(&input);
    write!(output, "{text}")?;
    Ok(())
}
