// The law of forgetting, over every sequence of changes of a dictionary from boot.
#![tactic(auto)]

ghost use Rattle.forgetting.specs.Law.{Absorbs, Composes, Forgets};
ghost use Rattle.std.specs.Prelude.{◌≡◌, nat_le};

// Words at FENCE or above may be forgotten. One begun after boot that FORGET finds while it stands leaves nothing behind,
// whatever was done meanwhile, and whether or not a younger one was forgotten first.
pub fn may_forget(fence: u16, w: u16) -> bool
    ensures answer { result ≡ nat_le fence w }
    ensures forgets { Forgets }
    ensures absorbs { Absorbs }
    ensures composes { Composes }
{
    fence <= w
}
