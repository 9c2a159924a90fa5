// What the assembler answers where it refuses a text.
ghost use Rattle.std.specs.Prelude.{◌≡◌};
ghost use Rattle.assembler.specs.Errors.{refusal_of};

// Lines are counted from 1, the header among them.
#[derive(Clone, Copy, PartialEq, Eq, Debug)]
pub enum AssemblyError {
    // the first line is not the header
    Header,
    // the line cannot be read
    Unreadable(usize),
    // the line defines a label again
    Redefined(usize),
    // the line has instruction 4,097 or defines label 257
    TooMany(usize),
    // the line has a label as operand that no line defines
    Undefined(usize),
    // the table is too short: so many entries are needed
    TableTooShort(usize),
}

// A refusal by its number, and what is returned with it: one number at each of the six, so a struct of its own, and no
// type or trait of the crate `dossier`, which is not below this one.
#[derive(Clone, Copy, PartialEq, Eq, Debug)]
pub struct Refusal {
    pub number: u8,
    pub value: usize,
}

// The numbers are the format's. A method, which users call; a `From` beside it would say the same again.
impl AssemblyError {
    pub fn refusal(self) -> Refusal
        ensures { result ≡ refusal_of self }
    {
        let (number, value) = match self {
            AssemblyError::Header => (9, 1),
            AssemblyError::Unreadable(line) => (10, line),
            AssemblyError::Redefined(line) => (11, line),
            AssemblyError::TooMany(line) => (13, line),
            AssemblyError::Undefined(line) => (12, line),
            AssemblyError::TableTooShort(needed) => (14, needed),
        };
        Refusal { number, value }
    }
}
