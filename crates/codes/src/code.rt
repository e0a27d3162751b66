// What a code cell asks for. The words that a running definition does often come first; the others are one step deeper.
use block_words::words::BlockWord;
use compiling_words::words::CompilingWord;
use control_words::words::ControlWord;
use data_words::words::{BinaryWord, DivideWord, LeavingWord, StackWord, UnaryWord};
use inner_words::words::{InlineWord, ReturnsWord};
use naming_words::words::NamingWord;
use space_words::words::{AppendingWord, MemoryWord};
use typing_words::words::TypingWord;

#[derive(Clone, Copy)]
pub enum Code {
    Stack(StackWord),
    Unary(UnaryWord),
    Binary(BinaryWord),
    Memory(MemoryWord),
    Leaving(LeavingWord),
    Returns(ReturnsWord),
    Inline(InlineWord),
    Colon,
    Created,
    Constant,
    Does,
    Seldom(SeldomWord),
}

#[derive(Clone, Copy)]
pub enum SeldomWord {
    Divide(DivideWord),
    Appending(AppendingWord),
    Allot,
    Typing(TypingWord),
    Block(BlockWord),
    Load,
    ToBody,
    Abort,
    Naming(NamingWord),
    Compiling(CompilingWord),
    Control(ControlWord),
    Vocabulary,
    Execute,
    Unknown,
}
