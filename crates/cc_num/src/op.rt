/// An operator of two integer operands (C99 6.5.5 to 6.5.12).
#[derive(Clone, Copy, Debug, PartialEq, Eq)]
pub enum BinOp {
    Add,
    Sub,
    Mul,
    Div,
    Rem,
    And,
    Or,
    Xor,
    Shl,
    Shr,
    Lt,
    Le,
    Gt,
    Ge,
    Eq,
    Ne,
}

impl BinOp {
    ghost use Rattle.std.specs.Prelude.{◌≡◌};
    ghost use Rattle.cc_num.specs.Results.{is_shift};

    /// Whether the operator is `<<` or `>>`, whose second operand keeps a type of its own (C99
    /// 6.5.7, 3).
    pub fn is_shift(self) -> bool
        ensures { result ≡ is_shift self }
    {
        matches!(self, BinOp::Shl | BinOp::Shr)
    }
}

/// An operator of one integer operand (C99 6.5.3.3): `-`, `~` and `!`.
#[derive(Clone, Copy, Debug, PartialEq, Eq)]
pub enum UnOp {
    Neg,
    Not,
    Lnot,
}
