// A text as lines, each ended by CR LF, CR or LF, or by the text's end.
ghost use Rattle.std.specs.Prelude.{◌≡◌, ◌<◌, ◌∷◌, length};
ghost use Rattle.std.specs.Iterator.{YieldsFirstRef, item_count};
ghost use Rattle.lexer.specs.Lines.{lines, first_line, past_end, other_lines};

use crate::class::{Class, cut};

// What follows the end of a line.
fn past_end(s: &str) -> &str
    ensures { result.now ≡ past_end s.now }
{
    match s.as_bytes() {
        [b'\r', b'\n', ..] => &s[2..],
        [b'\r' | b'\n', ..] => &s[1..],
        _ => s,
    }
}

// The first line, without its end, and the lines that follow it.
#[tactic(auto, using(crate::proofs::Split::lines_next, crate::proofs::Split::shrinks))]
pub fn next_line(s: &str) -> (&str, &str)
    ensures line { result.0.now ≡ first_line s.now }
    ensures rest { result.1.now ≡ other_lines s.now }
    ensures lines { 0 < length s.now → lines s.now ≡ result.0.now ∷ lines result.1.now }
    ensures shorter { 0 < length s.now → length result.1.now < length s.now }
{
    let (line, rest) = cut(s, Class::Line);
    (line, past_end(rest))
}

// The lines of what is left of a text.
#[derive(Clone, Copy)]
pub struct Lines<'a>(pub &'a str);

impl<'a> Iterator for Lines<'a> {
    type Item = &'a str;

    ghost next_gives = { YieldsFirstRef (λ s. lines s.0.now) };

    ghost remaining = { item_count (λ s. lines s.0.now) };

    fn next(&mut self) -> Option<&'a str> {
        if self.0.is_empty() {
            return None;
        }
        let (line, rest) = next_line(self.0);
        self.0 = rest;
        Some(line)
    }
}
