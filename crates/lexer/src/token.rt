// The words and marks of a line.
ghost use Rattle.std.specs.Prelude.{◌≡◌, ◌<◌, length, drop, slice_get, slice_index};
ghost use Rattle.lexer.specs.Tokens.{seen, token_at, kind_of, rest_of, token_in, rest_in};

use crate::class::{Class, cut};

// A part of the line. Its place is counted in bytes from the line's start.
#[derive(Clone, Copy)]
pub struct Word<'a> {
    pub text: &'a str,
    pub place: usize,
}

#[derive(Clone, Copy)]
pub enum Token<'a> {
    Label(Word<'a>),
    Mnemonic(Word<'a>),
    Register(Word<'a>),
    Integer(Word<'a>),
    Colon(usize),
    Comma(usize),
    // the end of the line, or a comment, which lasts until there
    End(usize),
    Unknown(usize),
}

// The byte at a place as a character.
fn char_at(s: &str, place: usize) -> Option<char>
    ensures { result ≡ slice_get s.now place }
{
    s.as_bytes().get(place).copied().map(char::from)
}

// What follows an ASCII character.
fn skip(s: &str) -> &str
    requires { (0 < length s.now) × (slice_index s.now 0 < 128) }
    ensures { result.now ≡ drop 1 s.now }
{
    &s[1..]
}

// The first token of a text with no blank in front, and what follows it.
fn first_token(s: &str, place: usize) -> (Token<'_>, &str)
    ensures token { seen result.0 ≡ token_at place s.now }
    ensures rest { result.1.now ≡ rest_of (kind_of s.now) s.now }
{
    let (text, rest) = cut(s, Class::Word);
    let word = Word { text, place };
    match (char_at(s, 0), char_at(s, 1)) {
        (Some('_'), _) => (Token::Label(word), rest),
        (Some('-' | '0'..='9'), _) => (Token::Integer(word), rest),
        (Some('r'), Some('0'..='9')) => (Token::Register(word), rest),
        (Some('a'..='z'), _) => (Token::Mnemonic(word), rest),
        (Some(':'), _) => (Token::Colon(place), skip(s)),
        (Some(','), _) => (Token::Comma(place), skip(s)),
        (Some(';') | None, _) => (Token::End(place), s),
        _ => (Token::Unknown(place), s),
    }
}

// What is left of a line that has `width` bytes. That the width stays is a clause of each reader: a field that no caller
// may write would need a reader of its own.
#[derive(Clone, Copy)]
pub struct Cursor<'a> {
    pub rest: &'a str,
    pub width: usize,
}

impl<'a> Cursor<'a> {
    // The whole line.
    pub fn new(line: &'a str) -> Cursor<'a>
        ensures rest { result.rest.now ≡ line.now }
        ensures width { result.width ≡ length line.now }
    {
        Cursor {
            rest: line,
            width: line.len(),
        }
    }

    // Takes the first token.
    pub fn next_token(&mut self) -> Token<'a>
        ensures token { seen result ≡ token_in self.old.width self.old.rest.now }
        ensures rest { self.new.rest.now ≡ rest_in self.old.rest.now }
        ensures width { self.new.width ≡ self.old.width }
    {
        let (_, start) = cut(self.rest, Class::Blank);
        let place = self.width.saturating_sub(start.len());
        let (token, rest) = first_token(start, place);
        self.rest = rest;
        token
    }
}
