// A line: a label, an instruction and a comment, each optional.
ghost use Rattle.std.specs.Prelude.{◌≡◌};
ghost use Rattle.std.specs.Option.{option_map};
ghost use Rattle.parser.specs.Operands.{left, Reads};
ghost use Rattle.parser.specs.Statements.{view_pair, pair_in, reversed_in, view_statement, view_line, operands_in, statement_in, line_in};

use crate::operand::{Argument, is_end, is_label, read_comma, read_operand, read_register};
use encoding::mnemonic::Mnemonic;
use lexer::token::{Cursor, Token, Word};
use mnemonics::name::mnemonic_of;

// An instruction as it is written. A register that it does not have is 0, as in its encoding.
#[derive(Clone, Copy)]
pub struct Statement<'a> {
    pub mnemonic: Mnemonic,
    pub destination: u8,
    pub source: u8,
    pub operand: Argument<'a>,
}

#[derive(Clone, Copy)]
pub struct Line<'a> {
    pub label: Option<Word<'a>>,
    pub statement: Option<Statement<'a>>,
}

// Takes `ri, A`.
fn read_pair<'a>(line: &mut Cursor<'a>) -> Option<(u8, Argument<'a>)>
    ensures { Reads pair_in view_pair result line.old line.new }
{
    let register = read_register(line)?;
    read_comma(line)?;
    let operand = read_operand(line)?;
    Some((register, operand))
}

// Takes `A, ri`: the same two in the other order, which no parameter would make plainer.
fn read_reversed<'a>(line: &mut Cursor<'a>) -> Option<(u8, Argument<'a>)>
    ensures { Reads reversed_in view_pair result line.old line.new }
{
    let operand = read_operand(line)?;
    read_comma(line)?;
    let register = read_register(line)?;
    Some((register, operand))
}

// Takes the operands of an instruction.
fn read_operands<'a>(mnemonic: Mnemonic, line: &mut Cursor<'a>) -> Option<Statement<'a>>
    ensures { left view_statement result line.new ≡ operands_in mnemonic line.old.width line.old.rest.now }
{
    let (destination, source, operand) = match mnemonic {
        Mnemonic::Compute(_) => {
            let destination = read_register(line)?;
            read_comma(line)?;
            let (source, operand) = read_pair(line)?;
            (destination, source, operand)
        }
        Mnemonic::Compare(_) => {
            let (source, operand) = read_pair(line)?;
            (0, source, operand)
        }
        Mnemonic::Store(_) => {
            let (destination, operand) = read_reversed(line)?;
            (destination, 0, operand)
        }
        Mnemonic::Jump(_) | Mnemonic::Answer => (0, 0, read_operand(line)?),
        Mnemonic::Not
        | Mnemonic::Move
        | Mnemonic::MoveIfFlag
        | Mnemonic::Load(_)
        | Mnemonic::Read => {
            let (destination, operand) = read_pair(line)?;
            (destination, 0, operand)
        }
    };
    Some(Statement {
        mnemonic,
        destination,
        source,
        operand,
    })
}

// An instruction or none, up to the end of the line. Every reader here answers `None` where it cannot read, and a line
// may have no instruction: an enum for both would be an `Option` again.
fn read_statement(mut line: Cursor<'_>) -> Option<Option<Statement<'_>>>
    ensures { option_map (option_map view_statement) result ≡ statement_in line.entry.width line.entry.rest.now }
{
    match line.next_token() {
        Token::End(_) => Some(None),
        Token::Mnemonic(word) => {
            let mnemonic = mnemonic_of(word.text)?;
            let statement = read_operands(mnemonic, &mut line)?;
            is_end(line).then_some(Some(statement))
        }
        _ => None,
    }
}

// A line, or `None` where it cannot be read.
#[tactic(auto, using(crate::proofs::Marks::stripped, crate::proofs::Marks::unmarked))]
pub fn read_line(line: &str) -> Option<Line<'_>>
    ensures { option_map view_line result ≡ line_in line.now }
{
    let mut cursor = Cursor::new(line);
    match cursor.next_token() {
        Token::Label(word) => {
            if !is_label(word.text) {
                return None;
            }
            let rest = cursor.rest.strip_prefix(':')?;
            let statement = read_statement(Cursor { rest, ..cursor })?;
            Some(Line {
                label: Some(word),
                statement,
            })
        }
        _ => {
            let statement = read_statement(Cursor::new(line))?;
            Some(Line {
                label: None,
                statement,
            })
        }
    }
}
