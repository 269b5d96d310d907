// The input of a script's tokens.
ghost use Rattle.std.specs.Prelude.{◌≡◌, true, MatchBool, MatchResult, OnOk};
ghost use Rattle.syntax_kind.specs.Editions.{edition_number};
ghost use Rattle.syntax_kind.specs.Trivia.{trivial};
ghost use Rattle.lexed_str.specs.Columns.{tokens};
ghost use Rattle.input.specs.Columns.{columns_of};
ghost use Rattle.input.specs.Loans.{StillLent};
ghost use Rattle.input.specs.Pushes.{answered, roomy, Grown};
ghost use Rattle.input.specs.Seen.{contextual_of, joint_of};
ghost use Rattle.input.specs.Joints.{Reads};
ghost use Rattle.input.specs.Building.{spacious, tokens_refusal, Built};

use crate::columns::Input;
use crate::push::Entry;
use crate::refusal::Refusal;
use crate::token::Token;
use lexed_str::LexedStr;
use syntax_kind::Edition;

// Makes the input anew: an entry for each token that is no trivia, whatever it held before.
pub fn to_input(lexed: &LexedStr, edition: u8, input: &mut Input) -> Result<(), Refusal>
    ensures answer { result ≡ answered (tokens_refusal (tokens lexed.now.kinds.now) edition (columns_of input.old)) }
    ensures columns { MatchResult result (λ _. Built lexed.now.script.bytes.now lexed.now.kinds.now lexed.now.starts.now edition (columns_of input.old) (columns_of input.new)) (λ _. columns_of input.new ≡ columns_of input.old) }
    ensures reads { OnOk result (Reads lexed.now.script.bytes.now lexed.now.kinds.now lexed.now.starts.now (columns_of input.new)) }
    ensures lent { StillLent input.old input.new }
{
    let edition = Edition::try_from(edition)?;
    if !input.has_room(lexed.len()) {
        return Err(Refusal::Full);
    }
    push_tokens(input, lexed, edition);
    Ok(())
}

// Puts the tokens in, one after the other: by their numbers, since columns are asked for a token by its number.
fn push_tokens(input: &mut Input, lexed: &LexedStr, edition: Edition)
    requires { spacious (tokens lexed.now.kinds.now) (columns_of input.old) ≡ true }
    ensures built { Built lexed.now.script.bytes.now lexed.now.kinds.now lexed.now.starts.now (edition_number edition) (columns_of input.old) (columns_of input.new) }
    ensures reads { Reads lexed.now.script.bytes.now lexed.now.kinds.now lexed.now.starts.now (columns_of input.new) }
    ensures lent { StillLent input.old input.new }
{
    input.len = 0;
    for i in 0..lexed.len() {
        push_token(input, &Token::at(lexed, i), edition);
    }
}

// Puts the token in, unless it is trivia.
fn push_token(input: &mut Input, token: &Token, edition: Edition)
    requires { roomy (columns_of input.old) ≡ true }
    ensures token { MatchBool (trivial token.now.kind) (columns_of input.new ≡ columns_of input.old) (Grown token.now.kind (contextual_of token.now edition) (edition_number edition) (joint_of token.now) (columns_of input.old) (columns_of input.new)) }
    ensures lent { StillLent input.old input.new }
{
    if token.is_trivial() {
        return;
    }
    input.put(Entry {
        kind: token.kind,
        contextual_kind: token.contextual_kind(edition),
        edition,
    });
    if token.is_joint() {
        input.mark_last();
    }
}
