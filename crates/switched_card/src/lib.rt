// A card with a write-protect switch, over any other store.
#![tactic(auto)]

ghost use Rattle.std.specs.Prelude.{◌≡◌, false};
ghost use Rattle.switched_card.specs.Switch.{switched, switched_sound};

use fault::{Fault, Place, Reason};
use store::Store;

// While the switch is on, the card inside can be read and not written.
#[derive(Drop)]
pub struct Switched<S> {
    card: S,
    locked: bool,
}

impl<S: Store> Switched<S> {
    // The card, with the switch off.
    pub fn new(card: S) -> Switched<S>
        ensures { (result.card ≡ card) × (result.locked ≡ false) }
    {
        Switched {
            card,
            locked: false,
        }
    }

    // Turns the switch on or off.
    pub fn set_locked(&mut self, locked: bool)
        ensures { (self.new.card ≡ self.old.card) × (self.new.locked ≡ locked) }
    {
        self.locked = locked;
    }
}

impl<S: Store> Store for Switched<S> {
    ghost means = { λ s. switched s.locked (S.Store.means s.card) };

    ghost sound = { λ s. switched_sound s.locked (S.Store.means s.card) (S.Store.sound s.card) };

    fn count(&self) -> u16 {
        self.card.count()
    }

    fn writable(&self) -> bool {
        self.card.writable() && !self.locked
    }

    fn read(&self, n: u16, into: &mut [u8; 1024], at: Place) -> Result<(), Fault> {
        self.card.read(n, into, at)
    }

    // A block that is not there is refused first, by the card inside.
    fn write(&mut self, n: u16, from: &[u8; 1024], at: Place) -> Result<(), Fault> {
        if self.locked && n < self.card.count() {
            return Err(Fault::new(Reason::NotWritable, at));
        }
        self.card.write(n, from, at)
    }
}
