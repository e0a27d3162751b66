// The words that type; `Text` is (."), which types the text behind its token.
#[derive(Clone, Copy)]
pub enum TypingWord {
    Dot,
    UDot,
    Emit,
    Type,
    Cr,
    Spaces,
    Text,
}
