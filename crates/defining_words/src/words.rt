// The words that define.
#[derive(Clone, Copy)]
pub enum DefiningWord {
    Colon,
    Create,
    Variable,
    Constant,
    Vocabulary,
}
