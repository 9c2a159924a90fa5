// The operators of TinyRAM's instructions on two words.

// What `op ri, rj, A` computes from the word in `rj` and from `A`.
#[derive(Clone, Copy, PartialEq, Eq, Debug)]
pub enum Arithmetic {
    And,
    Or,
    Xor,
    Add,
    Sub,
    Mull,
    Umulh,
    Smulh,
    Udiv,
    Umod,
    Shl,
    Shr,
}

// What `op ri, A` compares.
#[derive(Clone, Copy, PartialEq, Eq, Debug)]
pub enum Comparison {
    Equal,
    Above,
    AboveOrEqual,
    Greater,
    GreaterOrEqual,
}
