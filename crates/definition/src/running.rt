// When a run stops.
ghost use Rattle.std.specs.Prelude.{◌≡◌, nat_le};
ghost use Rattle.definition.specs.Laws.{RunCut, RunOnly, RunOutcome};

// Do the bytes that a step types fit into the space left? A run takes faultless steps while they do, and a run cut in two is the same run.
pub fn has_space(typed: usize, space: usize) -> bool
    ensures value { result ≡ nat_le typed space }
    ensures outcome { RunOutcome }
    ensures only { RunOnly }
    ensures cut { RunCut }
{
    typed <= space
}
