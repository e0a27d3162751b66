// The words that only a definition holds.

// Words on the return stack.
#[derive(Clone, Copy)]
pub enum ReturnsWord {
    Exit,
    ToR,
    RFrom,
    RFetch,
    Index,
    OuterIndex,
    Leave,
}

// Words that read the cell behind their token.
#[derive(Clone, Copy)]
pub enum InlineWord {
    Literal,
    Branch,
    QuestionBranch,
    Do,
    Loop,
    PlusLoop,
}
