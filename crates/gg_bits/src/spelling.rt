//! How operations are written (FIRRTL Specification, "Primitive Operations").
ghost use Rattle.std.specs.Prelude.{◌≡◌};
ghost use Rattle.gg_bits.specs.Spelling.{text1, text2, text_const};
ghost use Rattle.gg_bits.specs.inside.Spelling.{named1, named2, named_const};

use crate::ops::{Op1, Op2, OpN};

impl Op1 {
    /// How the operation is written.
    pub fn text(self) -> &'static str
        ensures { result.now ≡ text1 self }
    {
        match self {
            Op1::AsUInt => "asUInt",
            Op1::AsSInt => "asSInt",
            Op1::Cvt => "cvt",
            Op1::Neg => "neg",
            Op1::Not => "not",
            Op1::Andr => "andr",
            Op1::Orr => "orr",
            Op1::Xorr => "xorr",
        }
    }

    /// The operation on one value that a word names, if there is one.
    pub fn from_text(word: &str) -> Option<Op1>
        ensures { result ≡ named1 word.now }
    {
        match word {
            "asUInt" => Some(Op1::AsUInt),
            "asSInt" => Some(Op1::AsSInt),
            "cvt" => Some(Op1::Cvt),
            "neg" => Some(Op1::Neg),
            "not" => Some(Op1::Not),
            "andr" => Some(Op1::Andr),
            "orr" => Some(Op1::Orr),
            "xorr" => Some(Op1::Xorr),
            _ => None,
        }
    }
}

impl Op2 {
    /// How the operation is written.
    pub fn text(self) -> &'static str
        ensures { result.now ≡ text2 self }
    {
        match self {
            Op2::Add => "add",
            Op2::Sub => "sub",
            Op2::Mul => "mul",
            Op2::Div => "div",
            Op2::Rem => "rem",
            Op2::Lt => "lt",
            Op2::Leq => "leq",
            Op2::Gt => "gt",
            Op2::Geq => "geq",
            Op2::Eq => "eq",
            Op2::Neq => "neq",
            Op2::Dshl => "dshl",
            Op2::Dshr => "dshr",
            Op2::And => "and",
            Op2::Or => "or",
            Op2::Xor => "xor",
            Op2::Cat => "cat",
            Op2::Validif => "validif",
        }
    }

    /// The operation on two values that a word names, if there is one.
    pub fn from_text(word: &str) -> Option<Op2>
        ensures { result ≡ named2 word.now }
    {
        match word {
            "add" => Some(Op2::Add),
            "sub" => Some(Op2::Sub),
            "mul" => Some(Op2::Mul),
            "div" => Some(Op2::Div),
            "rem" => Some(Op2::Rem),
            "lt" => Some(Op2::Lt),
            "leq" => Some(Op2::Leq),
            "gt" => Some(Op2::Gt),
            "geq" => Some(Op2::Geq),
            "eq" => Some(Op2::Eq),
            "neq" => Some(Op2::Neq),
            "dshl" => Some(Op2::Dshl),
            "dshr" => Some(Op2::Dshr),
            "and" => Some(Op2::And),
            "or" => Some(Op2::Or),
            "xor" => Some(Op2::Xor),
            "cat" => Some(Op2::Cat),
            "validif" => Some(Op2::Validif),
            _ => None,
        }
    }
}

impl OpN {
    /// How the operation is written.
    pub fn text(self) -> &'static str
        ensures { result.now ≡ text_const self }
    {
        match self {
            OpN::Pad => "pad",
            OpN::Shl => "shl",
            OpN::Shr => "shr",
            OpN::Bits => "bits",
            OpN::Head => "head",
            OpN::Tail => "tail",
        }
    }

    /// The operation with parameters that a word names, if there is one.
    pub fn from_text(word: &str) -> Option<OpN>
        ensures { result ≡ named_const word.now }
    {
        match word {
            "pad" => Some(OpN::Pad),
            "shl" => Some(OpN::Shl),
            "shr" => Some(OpN::Shr),
            "bits" => Some(OpN::Bits),
            "head" => Some(OpN::Head),
            "tail" => Some(OpN::Tail),
            _ => None,
        }
    }
}
