// The kernel words that other words compile.
ghost use Rattle.std.specs.Prelude.{◌≡◌};
ghost use Rattle.definition.specs.Boot.{kernel_token};
ghost use Rattle.steps.specs.Numbers.{compiled_number};

// EXIT (LIT) BRANCH ?BRANCH (DO) (LOOP) (+LOOP) (;CODE) (.")
#[derive(Clone, Copy)]
pub enum CompiledWord {
    Exit,
    Literal,
    Branch,
    BranchIfZero,
    Do,
    Loop,
    PlusLoop,
    SemicolonCode,
    TypeText,
}

impl CompiledWord {
    // Its token: the address of its code cell in the dictionary that boot leaves.
    pub fn token(self) -> u16
        ensures { result ≡ kernel_token (compiled_number self) }
    {
        match self {
            CompiledWord::Exit => 1429,
            CompiledWord::Literal => 1510,
            CompiledWord::Branch => 1525,
            CompiledWord::BranchIfZero => 1541,
            CompiledWord::Do => 1554,
            CompiledWord::Loop => 1569,
            CompiledWord::PlusLoop => 1585,
            CompiledWord::SemicolonCode => 1601,
            CompiledWord::TypeText => 1614,
        }
    }
}
