// The codes in the order of the kernel table: each step looks one up by its number.
ghost use Rattle.std.specs.Prelude.{◌≤◌};
ghost use Rattle.codes.specs.Codes.{Coded, Rows};

use super::code::{Code, SeldomWord};
use block_words::words::BlockWord;
use compiling_words::words::CompilingWord;
use control_words::words::ControlWord;
use data_words::words::{BinaryWord, DivideWord, LeavingWord, StackWord, UnaryWord};
use defining_words::words::DefiningWord;
use dictionary::code;
use inner_words::words::{InlineWord, ReturnsWord};
use naming_words::words::NamingWord;
use space_words::words::{AppendingWord, MemoryWord};
use typing_words::words::TypingWord;

// Row n is the word of code n; no word has the code 0.
const KERNEL: [Code; 106] = [
    Code::Seldom(SeldomWord::Unknown),
    Code::Stack(StackWord::Dup),
    Code::Stack(StackWord::Drop),
    Code::Stack(StackWord::Swap),
    Code::Stack(StackWord::Over),
    Code::Stack(StackWord::Rot),
    Code::Stack(StackWord::QuestionDup),
    Code::Leaving(LeavingWord::Depth),
    Code::Stack(StackWord::Pick),
    Code::Stack(StackWord::Roll),
    Code::Binary(BinaryWord::Plus),
    Code::Binary(BinaryWord::Minus),
    Code::Binary(BinaryWord::Times),
    Code::Seldom(SeldomWord::Divide(DivideWord::Slash)),
    Code::Seldom(SeldomWord::Divide(DivideWord::Mod)),
    Code::Seldom(SeldomWord::Divide(DivideWord::SlashMod)),
    Code::Seldom(SeldomWord::Divide(DivideWord::TimesSlash)),
    Code::Unary(UnaryWord::OnePlus),
    Code::Unary(UnaryWord::OneMinus),
    Code::Unary(UnaryWord::TwoSlash),
    Code::Unary(UnaryWord::Negate),
    Code::Unary(UnaryWord::Abs),
    Code::Binary(BinaryWord::Min),
    Code::Binary(BinaryWord::Max),
    Code::Binary(BinaryWord::And),
    Code::Binary(BinaryWord::Or),
    Code::Binary(BinaryWord::Xor),
    Code::Unary(UnaryWord::Not),
    Code::Binary(BinaryWord::Equal),
    Code::Binary(BinaryWord::Less),
    Code::Binary(BinaryWord::Greater),
    Code::Unary(UnaryWord::ZeroEqual),
    Code::Unary(UnaryWord::ZeroLess),
    Code::Binary(BinaryWord::UnsignedLess),
    Code::Memory(MemoryWord::Fetch),
    Code::Memory(MemoryWord::Store),
    Code::Memory(MemoryWord::PlusStore),
    Code::Memory(MemoryWord::CFetch),
    Code::Memory(MemoryWord::CStore),
    Code::Memory(MemoryWord::CMove),
    Code::Memory(MemoryWord::Fill),
    Code::Leaving(LeavingWord::Base),
    Code::Memory(MemoryWord::Decimal),
    Code::Memory(MemoryWord::Hex),
    Code::Leaving(LeavingWord::Pad),
    Code::Leaving(LeavingWord::Here),
    Code::Seldom(SeldomWord::Allot),
    Code::Seldom(SeldomWord::Appending(AppendingWord::Comma)),
    Code::Seldom(SeldomWord::Appending(AppendingWord::CComma)),
    Code::Seldom(SeldomWord::Typing(TypingWord::Dot)),
    Code::Seldom(SeldomWord::Typing(TypingWord::UDot)),
    Code::Seldom(SeldomWord::Typing(TypingWord::Emit)),
    Code::Seldom(SeldomWord::Typing(TypingWord::Type)),
    Code::Seldom(SeldomWord::Typing(TypingWord::Cr)),
    Code::Seldom(SeldomWord::Typing(TypingWord::Spaces)),
    Code::Seldom(SeldomWord::Block(BlockWord::Block)),
    Code::Seldom(SeldomWord::Block(BlockWord::Update)),
    Code::Seldom(SeldomWord::Block(BlockWord::Flush)),
    Code::Seldom(SeldomWord::Load),
    Code::Seldom(SeldomWord::Execute),
    Code::Seldom(SeldomWord::Naming(NamingWord::Tick)),
    Code::Seldom(SeldomWord::ToBody),
    Code::Seldom(SeldomWord::Naming(NamingWord::Paren)),
    Code::Seldom(SeldomWord::Abort),
    Code::Seldom(SeldomWord::Naming(NamingWord::Defining(DefiningWord::Colon))),
    Code::Seldom(SeldomWord::Compiling(CompilingWord::Semicolon)),
    Code::Seldom(SeldomWord::Naming(NamingWord::Defining(DefiningWord::Create))),
    Code::Seldom(SeldomWord::Naming(NamingWord::Defining(DefiningWord::Variable))),
    Code::Seldom(SeldomWord::Naming(NamingWord::Defining(DefiningWord::Constant))),
    Code::Seldom(SeldomWord::Naming(NamingWord::Defining(DefiningWord::Vocabulary))),
    Code::Seldom(SeldomWord::Compiling(CompilingWord::Definitions)),
    Code::Seldom(SeldomWord::Compiling(CompilingWord::Immediate)),
    Code::Seldom(SeldomWord::Naming(NamingWord::Forget)),
    Code::Seldom(SeldomWord::Compiling(CompilingWord::LeftBracket)),
    Code::Seldom(SeldomWord::Compiling(CompilingWord::RightBracket)),
    Code::Seldom(SeldomWord::Compiling(CompilingWord::Literal)),
    Code::Seldom(SeldomWord::Naming(NamingWord::BracketTick)),
    Code::Seldom(SeldomWord::Naming(NamingWord::BracketCompile)),
    Code::Seldom(SeldomWord::Compiling(CompilingWord::Compile)),
    Code::Seldom(SeldomWord::Compiling(CompilingWord::Does)),
    Code::Seldom(SeldomWord::Control(ControlWord::If)),
    Code::Seldom(SeldomWord::Control(ControlWord::Else)),
    Code::Seldom(SeldomWord::Control(ControlWord::Then)),
    Code::Seldom(SeldomWord::Control(ControlWord::Begin)),
    Code::Seldom(SeldomWord::Control(ControlWord::While)),
    Code::Seldom(SeldomWord::Control(ControlWord::Repeat)),
    Code::Seldom(SeldomWord::Control(ControlWord::Until)),
    Code::Seldom(SeldomWord::Control(ControlWord::Do)),
    Code::Seldom(SeldomWord::Control(ControlWord::Loop)),
    Code::Seldom(SeldomWord::Control(ControlWord::PlusLoop)),
    Code::Seldom(SeldomWord::Naming(NamingWord::DotQuote)),
    Code::Returns(ReturnsWord::Exit),
    Code::Returns(ReturnsWord::ToR),
    Code::Returns(ReturnsWord::RFrom),
    Code::Returns(ReturnsWord::RFetch),
    Code::Returns(ReturnsWord::Index),
    Code::Returns(ReturnsWord::OuterIndex),
    Code::Returns(ReturnsWord::Leave),
    Code::Inline(InlineWord::Literal),
    Code::Inline(InlineWord::Branch),
    Code::Inline(InlineWord::QuestionBranch),
    Code::Inline(InlineWord::Do),
    Code::Inline(InlineWord::Loop),
    Code::Inline(InlineWord::PlusLoop),
    Code::Seldom(SeldomWord::Compiling(CompilingWord::SemicolonCode)),
    Code::Seldom(SeldomWord::Typing(TypingWord::Text)),
];

fn row(codes: &[Code; 106], number: u16) -> Code
    requires { (number ≤ 105) × Rows codes.now }
    ensures { Coded number result }
{
    codes[usize::from(number)]
}

impl From<u16> for Code {
    ghost from_gives = { Coded };

    // What the code of a word asks for. The kernel words come first, by a comparison of its own.
    fn from(number: u16) -> Code {
        if number <= 105 {
            return row(&KERNEL, number);
        }
        match number {
            code::COLON => Code::Colon,
            code::CREATED => Code::Created,
            code::CONSTANT => Code::Constant,
            code::VOCABULARY => Code::Seldom(SeldomWord::Vocabulary),
            code::DOES => Code::Does,
            _ => Code::Seldom(SeldomWord::Unknown),
        }
    }
}
