// The words that take a name or a text.
use defining_words::words::DefiningWord;

#[derive(Clone, Copy)]
pub enum NamingWord {
    Tick,
    Paren,
    Defining(DefiningWord),
    Forget,
    BracketTick,
    BracketCompile,
    DotQuote,
}
