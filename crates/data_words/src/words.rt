// The words on data cells, by what they take and leave.

// Words that put a register or an address on the stack.
#[derive(Clone, Copy)]
pub enum LeavingWord {
    Depth,
    Base,
    Pad,
    Here,
}

// Words that copy, drop or move cells.
#[derive(Clone, Copy)]
pub enum StackWord {
    Dup,
    Drop,
    Swap,
    Over,
    Rot,
    QuestionDup,
    Pick,
    Roll,
}

// Words that make one cell of one.
#[derive(Clone, Copy)]
pub enum UnaryWord {
    OnePlus,
    OneMinus,
    TwoSlash,
    Negate,
    Abs,
    Not,
    ZeroEqual,
    ZeroLess,
}

// Words that make one cell of two.
#[derive(Clone, Copy)]
pub enum BinaryWord {
    Plus,
    Minus,
    Times,
    Min,
    Max,
    And,
    Or,
    Xor,
    Equal,
    Less,
    Greater,
    UnsignedLess,
}

// Words that divide.
#[derive(Clone, Copy)]
pub enum DivideWord {
    Slash,
    Mod,
    SlashMod,
    TimesSlash,
}
