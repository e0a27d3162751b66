// The open loads as a stack in eight named places: registers hold no array.
ghost use Rattle.std.specs.Prelude.{◌≡◌, ℕ, ◌+◌, ◌-◌, ◌<◌, ◌≤◌, ◌∷◌, slice_set};
ghost use Rattle.definition.specs.Ranges.{eight, load_at};
ghost use Rattle.definition.specs.View.{loads_of};

use definition::registers::{Loads, Position};

fn at(loads: &Loads, place: u16) -> Position
    requires { place < 8 }
    ensures { result ≡ load_at loads.now place }
{
    match place {
        0 => loads.first,
        1 => loads.second,
        2 => loads.third,
        3 => loads.fourth,
        4 => loads.fifth,
        5 => loads.sixth,
        6 => loads.seventh,
        _ => loads.eighth,
    }
}

fn put(loads: &mut Loads, place: u16, load: Position)
    requires { place < 8 }
    ensures places { eight loads.new ≡ slice_set (eight loads.old) place load }
    ensures count { loads.new.count ≡ loads.old.count }
{
    match place {
        0 => loads.first = load,
        1 => loads.second = load,
        2 => loads.third = load,
        3 => loads.fourth = load,
        4 => loads.fifth = load,
        5 => loads.sixth = load,
        6 => loads.seventh = load,
        _ => loads.eighth = load,
    }
}

// Opens a load, whose caller goes on there.
pub(crate) fn open_one(loads: &mut Loads, caller: Position)
    requires { (loads.old.count < 8) × ((caller.offset ≤ 1024) × (((k : ℕ) → (load_at loads.old k).offset ≤ 1024))) }
    ensures stack { loads_of loads.new ≡ caller ∷ loads_of loads.old }
    ensures count { loads.new.count ≡ loads.old.count + 1 }
    ensures offsets { (k : ℕ) → (load_at loads.new k).offset ≤ 1024 }
{
    put(loads, loads.count, caller);
    loads.count += 1;
}

// Ends the innermost load, and answers where its caller goes on.
pub(crate) fn end_one(loads: &mut Loads) -> Position
    requires { (0 < loads.old.count) × ((loads.old.count ≤ 8) × (((k : ℕ) → (load_at loads.old k).offset ≤ 1024))) }
    ensures stack { loads_of loads.old ≡ result ∷ loads_of loads.new }
    ensures count { loads.new.count ≡ loads.old.count - 1 }
    ensures offsets { (k : ℕ) → (load_at loads.new k).offset ≤ 1024 }
    ensures caller { result.offset ≤ 1024 }
{
    loads.count -= 1;
    at(loads, loads.count)
}
