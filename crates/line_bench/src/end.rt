// How a run ends, as a table tells it.
use fault::Fault;

#[derive(Clone, Copy, PartialEq, Eq)]
pub enum End {
    Finished,
    // The budget is used, or the next step types more than there is space for.
    Stopped,
    // A number, and the place and length of the word that was taken last.
    Fault(u8, u16, u16),
    // The same with BLK before it, where that is not 0.
    BlockFault(u16, u8, u16, u16),
}

impl End {
    pub(crate) fn of(fault: Fault) -> End {
        let number = fault.number();
        let place = fault.place;
        if place.blk == 0 {
            End::Fault(number, place.start, place.length)
        } else {
            End::BlockFault(place.blk, number, place.start, place.length)
        }
    }
}
