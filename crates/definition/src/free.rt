// Which bytes of the image are free.
ghost use Rattle.std.specs.Prelude.{◌≡◌};
ghost use Rattle.definition.specs.Agree.{AgreeIsEqualViews, ViewDictionary};
ghost use Rattle.definition.specs.View.{is_free};

use super::registers::Shared;

impl Shared {
    // Bytes from DP to 32,767 and from HERE on are free: machines that are equal in all else have equal views.
    pub fn is_free(&self, address: u16) -> bool
        ensures value { result ≡ is_free self.now address }
        ensures agree { AgreeIsEqualViews }
        ensures dictionary { ViewDictionary }
    {
        (self.ends.dp..32768).contains(&address) || self.ends.here <= address
    }
}
