// The token at IP.
ghost use Rattle.std.specs.Prelude.{◌≡◌};
ghost use Rattle.stepping.specs.Steps.{TakesToken};

use definition::ranged::Registers;
use fault::Fault;
use steps::inside::ask_inside;
use steps::pointer::set_pointer;

// Takes it, and IP goes behind it.
pub(crate) fn take_token(registers: &mut Registers, image: &[u8; 65536]) -> Result<u16, Fault>
    ensures { TakesToken registers.old image.now result registers.new }
{
    let ip = registers.seat.flow.ip;
    ask_inside(registers, ip, 2)?;
    set_pointer(registers, ip + 2);
    Ok(image::fetch(image, usize::from(ip)))
}
