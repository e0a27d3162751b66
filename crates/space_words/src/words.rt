// The words on data space.
ghost use Rattle.std.specs.Prelude.{◌≡◌, ◌≤◌};
ghost use Rattle.space_words.specs.Numbers.{size_of};

// Those that fetch and store, and set BASE.
#[derive(Clone, Copy)]
pub enum MemoryWord {
    Fetch,
    Store,
    PlusStore,
    CFetch,
    CStore,
    CMove,
    Fill,
    Decimal,
    Hex,
}

// Those that append to it.
#[derive(Clone, Copy)]
pub enum AppendingWord {
    Comma,
    CComma,
}

impl AppendingWord {
    // How many bytes of a cell it appends, the low ones first.
    pub(crate) fn size(self) -> u16
        ensures value { result ≡ size_of self }
        ensures within { result ≤ 2 }
    {
        match self {
            AppendingWord::Comma => 2,
            AppendingWord::CComma => 1,
        }
    }
}
