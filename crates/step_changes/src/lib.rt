// What a step does to the dictionary, and the law of forgetting over every history from boot.
#![tactic(auto)]

ghost use Rattle.std.specs.Prelude.{◌≡◌, not, ◌==◌, nat_lt};
ghost use Rattle.step_changes.specs.Laws.{StepChanges, StepForgets, StoryTold, CallsInMoments, SteadyAlways, CompilesOpen, MarksInside};

// A function of its own, so that the comparison is proved here and not beside the laws; `is_entry` too.
fn is_older(word: u16, than: u16) -> bool
    ensures { result ≡ nat_lt word than }
{
    word < than
}

// Does a word still stand after that one is forgotten? Every step changes the dictionary only by the allowed changes, a call
// is made of such moments, and a word that a step began and that FORGET finds while it stands leaves nothing behind.
pub fn stands(forgotten: u16, word: u16) -> bool
    ensures answer { result ≡ nat_lt word forgotten }
    ensures changes { StepChanges }
    ensures calls { CallsInMoments }
    ensures forgets { StepForgets }
    ensures told { StoryTold }
{
    is_older(word, forgotten)
}

fn is_entry(opened: u16) -> bool
    ensures { result ≡ not (opened == 0) }
{
    opened != 0
}

// May a machine with this open entry, or 0, compile? (Registers are plain numbers.) At every moment from boot one that compiles has
// an entry open, and every mark lies in it.
pub fn may_compile(opened: u16) -> bool
    ensures answer { result ≡ not (opened == 0) }
    ensures steady { SteadyAlways }
    ensures compiles { CompilesOpen }
    ensures marks { MarksInside }
{
    is_entry(opened)
}
