// A word of the text: the token of an immediate word or of another, or a number.
#[derive(Clone, Copy)]
pub enum Word {
    Immediate(u16),
    Plain(u16),
    Number(u16),
}
