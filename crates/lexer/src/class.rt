// The longest front of a text whose characters are of one class.
ghost use Rattle.std.specs.Prelude.{◌≡◌};
ghost use Rattle.std.specs.List.{prefix_len};
ghost use Rattle.lexer.specs.Classes.{belongs, front, past};

// The classes are few and fixed, and definitions name them, which a closure cannot be.
#[derive(Clone, Copy)]
pub enum Class {
    // space and tab
    Blank,
    // what words are made of: a sign, a point, letters, digits and the underscore
    Word,
    // what stands in a label: letters, digits and the underscore
    Name,
    Digit,
    // all but CR and LF
    Line,
}

impl Class {
    fn has(self, c: char) -> bool
        ensures { result ≡ belongs self c }
    {
        match self {
            Class::Blank => matches!(c, ' ' | '\t'),
            Class::Word => matches!(c, '-' | '.' | '0'..='9' | 'A'..='Z' | '_' | 'a'..='z'),
            Class::Name => matches!(c, '0'..='9' | 'A'..='Z' | '_' | 'a'..='z'),
            Class::Digit => c.is_ascii_digit(),
            Class::Line => !matches!(c, '\n' | '\r'),
        }
    }
}

// How many bytes at the front are of the class.
fn front_len(s: &str, class: Class) -> usize
    ensures { result ≡ prefix_len (belongs class) s.now }
{
    s.as_bytes()
        .iter()
        .take_while(|b| class.has(char::from(**b)))
        .count()
}

// The longest front of the class, and what follows it.
#[tactic(auto, using(crate::proofs::Runs::boundary))]
pub fn cut(s: &str, class: Class) -> (&str, &str)
    ensures front { result.0.now ≡ front class s.now }
    ensures rest { result.1.now ≡ past class s.now }
{
    s.split_at(front_len(s, class))
}
