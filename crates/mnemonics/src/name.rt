// The names of the 29 instructions.
ghost use Rattle.std.specs.Prelude.{◌≡◌};
ghost use Rattle.std.specs.List.{find};
ghost use Rattle.mnemonics.specs.Names.{name_of, is_named, computing, comparing, others, mnemonic_of};

use encoding::mnemonic::Mnemonic;
use encoding::operation::Condition;
use word::cell::Size;
use word::operator::{Arithmetic, Comparison};

fn computing(text: &str) -> Option<Mnemonic>
    ensures { result ≡ find (is_named text.now) computing }
{
    match text {
        "and" => Some(Mnemonic::Compute(Arithmetic::And)),
        "or" => Some(Mnemonic::Compute(Arithmetic::Or)),
        "xor" => Some(Mnemonic::Compute(Arithmetic::Xor)),
        "add" => Some(Mnemonic::Compute(Arithmetic::Add)),
        "sub" => Some(Mnemonic::Compute(Arithmetic::Sub)),
        "mull" => Some(Mnemonic::Compute(Arithmetic::Mull)),
        "umulh" => Some(Mnemonic::Compute(Arithmetic::Umulh)),
        "smulh" => Some(Mnemonic::Compute(Arithmetic::Smulh)),
        "udiv" => Some(Mnemonic::Compute(Arithmetic::Udiv)),
        "umod" => Some(Mnemonic::Compute(Arithmetic::Umod)),
        "shl" => Some(Mnemonic::Compute(Arithmetic::Shl)),
        "shr" => Some(Mnemonic::Compute(Arithmetic::Shr)),
        _ => None,
    }
}

fn comparing(text: &str) -> Option<Mnemonic>
    ensures { result ≡ find (is_named text.now) comparing }
{
    match text {
        "cmpe" => Some(Mnemonic::Compare(Comparison::Equal)),
        "cmpa" => Some(Mnemonic::Compare(Comparison::Above)),
        "cmpae" => Some(Mnemonic::Compare(Comparison::AboveOrEqual)),
        "cmpg" => Some(Mnemonic::Compare(Comparison::Greater)),
        "cmpge" => Some(Mnemonic::Compare(Comparison::GreaterOrEqual)),
        _ => None,
    }
}

fn other(text: &str) -> Option<Mnemonic>
    ensures { result ≡ find (is_named text.now) others }
{
    match text {
        "not" => Some(Mnemonic::Not),
        "mov" => Some(Mnemonic::Move),
        "cmov" => Some(Mnemonic::MoveIfFlag),
        "jmp" => Some(Mnemonic::Jump(Condition::Always)),
        "cjmp" => Some(Mnemonic::Jump(Condition::IfFlag)),
        "cnjmp" => Some(Mnemonic::Jump(Condition::UnlessFlag)),
        "store.b" => Some(Mnemonic::Store(Size::Byte)),
        "store.w" => Some(Mnemonic::Store(Size::Word)),
        "load.b" => Some(Mnemonic::Load(Size::Byte)),
        "load.w" => Some(Mnemonic::Load(Size::Word)),
        "read" => Some(Mnemonic::Read),
        "answer" => Some(Mnemonic::Answer),
        _ => None,
    }
}

// The instruction of a name, if there is one. It is looked for in three functions: the compiler branches on the text's length
// where a match has a dozen arms, and tries the names in turn where it has all 29.
pub fn mnemonic_of(text: &str) -> Option<Mnemonic>
    ensures { result ≡ mnemonic_of text.now }
{
    computing(text).or(comparing(text)).or(other(text))
}

// A function, and no `Display`: that is refused for another crate's enum, and crate `encoding` knows no text.
pub fn name_of(mnemonic: Mnemonic) -> &'static str
    ensures { result.now ≡ name_of mnemonic }
{
    match mnemonic {
        Mnemonic::Compute(Arithmetic::And) => "and",
        Mnemonic::Compute(Arithmetic::Or) => "or",
        Mnemonic::Compute(Arithmetic::Xor) => "xor",
        Mnemonic::Compute(Arithmetic::Add) => "add",
        Mnemonic::Compute(Arithmetic::Sub) => "sub",
        Mnemonic::Compute(Arithmetic::Mull) => "mull",
        Mnemonic::Compute(Arithmetic::Umulh) => "umulh",
        Mnemonic::Compute(Arithmetic::Smulh) => "smulh",
        Mnemonic::Compute(Arithmetic::Udiv) => "udiv",
        Mnemonic::Compute(Arithmetic::Umod) => "umod",
        Mnemonic::Compute(Arithmetic::Shl) => "shl",
        Mnemonic::Compute(Arithmetic::Shr) => "shr",
        Mnemonic::Not => "not",
        Mnemonic::Compare(Comparison::Equal) => "cmpe",
        Mnemonic::Compare(Comparison::Above) => "cmpa",
        Mnemonic::Compare(Comparison::AboveOrEqual) => "cmpae",
        Mnemonic::Compare(Comparison::Greater) => "cmpg",
        Mnemonic::Compare(Comparison::GreaterOrEqual) => "cmpge",
        Mnemonic::Move => "mov",
        Mnemonic::MoveIfFlag => "cmov",
        Mnemonic::Jump(Condition::Always) => "jmp",
        Mnemonic::Jump(Condition::IfFlag) => "cjmp",
        Mnemonic::Jump(Condition::UnlessFlag) => "cnjmp",
        Mnemonic::Store(Size::Byte) => "store.b",
        Mnemonic::Load(Size::Byte) => "load.b",
        Mnemonic::Store(Size::Word) => "store.w",
        Mnemonic::Load(Size::Word) => "load.w",
        Mnemonic::Read => "read",
        Mnemonic::Answer => "answer",
    }
}
