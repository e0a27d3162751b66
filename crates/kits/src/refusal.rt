// Why a text cannot be a kit.
ghost use Rattle.fault.specs.Numbers.{fault_of, place_of};
ghost use Rattle.fault.specs.declared.Reason.TheVariants.{WrongLength};
ghost use Rattle.store.specs.Texts.{is_text_card};
ghost use Rattle.store.specs.Lines.{FirstLongLine};
ghost use Rattle.std.specs.Prelude.{◌≡◌, true, false, MatchOption};

use fault::Fault;
use std::{error, fmt};
use store::TextCard;

// The store's fault, and the line that is too long, counted from 1, if that is the reason.
#[derive(Clone, Copy, Debug)]
pub struct KitRefused {
    fault: Fault,
    line: Option<usize>,
}

impl KitRefused {
    // Refused exactly where the text is no card.
    pub fn of(text: &[u8]) -> Option<KitRefused>
        ensures { MatchOption result (is_text_card text.now ≡ true) (λ k. (is_text_card text.now ≡ false) × (k.fault ≡ fault_of WrongLength (place_of 0 0 0)) × FirstLongLine text.now k.line) }
    {
        let fault = TextCard::query(text).err()?;
        Some(KitRefused {
            fault,
            line: store::first_long_line(text),
        })
    }
}

impl fmt::Display for KitRefused {
    fn fmt<W: fmt::Write>(&self, f: &mut fmt::Formatter<W>) -> fmt::Result {
        match self.line {
            Some(index) => write!(
                f,
                "kit refused, nothing written: line {} has more than 64 bytes; {}",
                index.saturating_add(1),
                self.fault
            ),
            None => write!(
                f,
                "kit refused, nothing written: more than 65535 blocks; {}",
                self.fault
            ),
        }
    }
}

impl error::Error for KitRefused {}
