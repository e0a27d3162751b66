// What boot leaves: the kernel words' entries, and the registers; and lines typed after it.
#![tactic(auto)]

pub mod example_lines;

ghost use Rattle.std.specs.Prelude.{◌≡◌};
ghost use Rattle.definition.specs.Boot.{fence};
ghost use Rattle.kernel_table.specs.Table.{boot_seat, boot_shared, KernelStands, RegistersBoot};

use definition::ranged::Registers;
use definition::registers::{Buffer, LastWord, Seat, Shared};
use dictionary::FORTH;
use dictionary::registers::{DATA_SPACE, Ends, Names, SearchOrder};

// DP at boot, behind the kernel words; nothing below it is forgotten.
const FENCE: u16 = 1618;

// FENCE. Each kernel word stands below it as its row of the table says, and with these bytes `booted` is the machine that boot gives.
pub fn fence_address() -> u16
    ensures value { result ≡ fence }
    ensures table { KernelStands }
    ensures registers { RegistersBoot }
{
    FENCE
}

// The registers at boot.
pub fn booted() -> Registers
    ensures shared { result.shared ≡ boot_shared }
    ensures seat { result.seat ≡ boot_seat }
{
    let shared = Shared {
        ends: Ends {
            dp: FENCE,
            here: DATA_SPACE,
        },
        names: Names {
            newest: 1607,
            voclink: 278,
            opened: 0,
        },
        buffer: Buffer::default(),
    };
    let order = SearchOrder {
        context: FORTH,
        current: FORTH,
    };
    Registers {
        shared,
        seat: Seat::at_rest(order, LastWord::default()),
    }
}
