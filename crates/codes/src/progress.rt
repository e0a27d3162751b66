// How a word that types nothing counts as progress.
ghost use Rattle.std.specs.Prelude.{◌≡◌};
ghost use Rattle.codes.specs.Performs.{went_by};

use fault::Fault;
use steps::progress::Progress;

// It went on, unless it was refused.
pub fn went(done: Result<(), Fault>) -> Result<Progress, Fault>
    ensures { result ≡ went_by done }
{
    done.map(|()| Progress::Went)
}
