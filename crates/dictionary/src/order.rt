// The search order: CONTEXT, then CURRENT, then FORTH. No vocabulary is searched twice.
ghost use Rattle.std.specs.Prelude.{◌≡◌, ◌≤◌, length};
ghost use Rattle.dictionary.specs.Lent.{dict_of};
ghost use Rattle.dictionary.specs.Search.{or_else, searched};
ghost use Rattle.entries.specs.Entries.{forth};
ghost use Rattle.entries.specs.Search.{missing, search_in};
ghost use Rattle.entries.specs.Threads.{Ascii, answered};
ghost use Rattle.image.specs.Views.{low_of};

use super::registers::{Dictionary, SearchOrder};
use fault::{Fault, Place};

// FORTH, by the address of its first head.
pub const FORTH: u16 = 270;

impl Dictionary {
    // The entry of that name in the first vocabulary that has one.
    pub fn search(
        &self,
        image: &[u8; 65536],
        name: &[u8],
        told: Place,
    ) -> Result<Option<u16>, Fault>
        requires { (1 ≤ length name.now) × (Ascii name.now) }
        ensures { result ≡ answered told (searched (dict_of self.now image.now) name.now) }
    {
        let entries = self.entries(image);
        let SearchOrder { context, current } = self.order;
        let mut found = entries.search_vocabulary(context, name, told)?;
        if found.is_none() && current != context {
            found = entries.search_vocabulary(current, name, told)?;
        }
        if found.is_none() && !self.order.has(FORTH) {
            found = entries.search_vocabulary(FORTH, name, told)?;
        }
        Ok(found)
    }
}
