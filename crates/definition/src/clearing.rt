// What a fault or an abort leaves of the registers.
ghost use Rattle.std.specs.Prelude.{◌≡◌};
ghost use Rattle.store.specs.Meaning.{Meaning};
ghost use Rattle.definition.specs.Laws.{FaultInRun, FaultKeeps};
ghost use Rattle.definition.specs.Run.{cleared};
ghost use Rattle.definition.specs.View.{Lent, view_of};

use super::ranged::Registers;
use super::registers::Seat;

impl Registers {
    // Stacks, marks and loads are emptied, compiling stops, the open entry is given up, and IP, BLK, >IN and the line's length become 0.
    // A step that faults leaves all else as it was before it, but for an updated buffer that it wrote out.
    pub fn clear(&mut self)
        ensures view { (l : Lent) (s : Meaning) → view_of self.new.shared self.new.seat l s ≡ cleared (view_of self.old.shared self.old.seat l s) }
        ensures step { FaultKeeps }
        ensures run { FaultInRun }
    {
        self.shared.ends.dp = self.shared.names.kept_end(self.shared.ends.dp);
        self.shared.names.opened = 0;
        self.seat = Seat::at_rest(self.seat.order, self.seat.source.word);
    }
}
