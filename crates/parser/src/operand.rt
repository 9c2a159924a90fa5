// The operands of an instruction.
ghost use Rattle.std.specs.Prelude.{◌≡◌};
ghost use Rattle.std.specs.Option.{option_map};
ghost use Rattle.lexer.specs.Tokens.{seen};
ghost use Rattle.parser.specs.Operands.{view_argument, label, argument_of, Reads, comma_in, ended, operand_in, register_in};

use crate::number::{integer_of, register_of};
use lexer::class::{Class, cut};
use lexer::token::{Cursor, Token, Word};

// An operand as it is written: `A` may be any of these, the other operands are registers.
#[derive(Clone, Copy)]
pub enum Argument<'a> {
    Register(u8),
    Integer(u32),
    Label(Word<'a>),
}

// Whether a word that starts with an underscore is a label.
pub(crate) fn is_label(text: &str) -> bool
    ensures { result ≡ label text.now }
{
    let (_, rest) = cut(text, Class::Name);
    text.len() > 1 && rest.is_empty()
}

fn argument_of(token: Token<'_>) -> Option<Argument<'_>>
    ensures { option_map view_argument result ≡ argument_of (seen token.entry) }
{
    match token {
        Token::Register(word) => Some(Argument::Register(register_of(word.text)?)),
        Token::Integer(word) => Some(Argument::Integer(integer_of(word.text)?)),
        Token::Label(word) if is_label(word.text) => Some(Argument::Label(word)),
        _ => None,
    }
}

// Takes a comma.
pub(crate) fn read_comma(line: &mut Cursor<'_>) -> Option<()>
    ensures rest { option_map (λ _. line.new.rest.now) result ≡ comma_in line.old.rest.now }
    ensures width { line.new.width ≡ line.old.width }
{
    matches!(line.next_token(), Token::Comma(_)).then_some(())
}

// Whether nothing follows but blanks and a comment.
pub(crate) fn is_end(mut line: Cursor<'_>) -> bool
    ensures { result ≡ ended line.entry.rest.now }
{
    matches!(line.next_token(), Token::End(_))
}

// Takes `A`.
pub(crate) fn read_operand<'a>(line: &mut Cursor<'a>) -> Option<Argument<'a>>
    ensures { Reads operand_in view_argument result line.old line.new }
{
    argument_of(line.next_token())
}

// Takes a register, and answers its number.
pub(crate) fn read_register(line: &mut Cursor<'_>) -> Option<u8>
    ensures { Reads register_in (λ n. n) result line.old line.new }
{
    match read_operand(line)? {
        Argument::Register(n) => Some(n),
        _ => None,
    }
}
