// Bytes appended at DP. A cast loses nothing: there is space up to 32,768.
ghost use Rattle.std.specs.Prelude.{◌≡◌, ◌+◌, ◌/◌, ◌%◌, ◌<◌, ◌≤◌, [], ◌∷◌, length, MatchResult};
ghost use Rattle.dictionary.specs.Dict.{appended};
ghost use Rattle.dictionary.specs.Lent.{Did, Outside, dict_of, with_room};
ghost use Rattle.entries.specs.Entries.{spelled};
ghost use Rattle.entries.specs.Threads.{Ascii};
ghost use Rattle.fault.specs.Numbers.{fault_of};
ghost use Rattle.fault.specs.declared.Reason.TheVariants.{DictionaryFull};
ghost use Rattle.image.specs.Cells.{cell};

use super::registers::Dictionary;
use entries::held_byte;
use fault::{Fault, Place, Reason};

// A cell's bytes, the low one first.
#[tactic(auto, using(crate::proofs::Growing::le_bytes_are_cell))]
fn cell_bytes(x: u16) -> [u8; 2]
    ensures { result ≡ cell x }
{
    x.to_le_bytes()
}

impl Dictionary {
    // Have n bytes more space?
    pub(crate) fn room(&self, n: usize, told: Place) -> Result<(), Fault>
        ensures { MatchResult result (λ _. self.now.ends.dp + n ≤ 32768) (λ f. (32768 < self.now.ends.dp + n) × (f ≡ fault_of DictionaryFull told)) }
    {
        if n > usize::from(32768 - self.ends.dp) {
            return Err(Fault::new(Reason::DictionaryFull, told));
        }
        Ok(())
    }

    // Puts bytes at DP, which have space.
    pub(crate) fn put(&mut self, image: &mut [u8; 65536], bytes: &[u8])
        requires { self.old.ends.dp + length bytes.now ≤ 32768 }
        ensures made { dict_of self.new image.new ≡ appended bytes.now (dict_of self.old image.old) }
        ensures dp { self.new.ends.dp ≡ self.old.ends.dp + length bytes.now }
        ensures rest { Outside image.old image.new }
    {
        self.ends.dp = image::append(image, usize::from(self.ends.dp), bytes) as u16;
    }

    // Puts a cell.
    pub(crate) fn put_cell(&mut self, image: &mut [u8; 65536], x: u16)
        requires { self.old.ends.dp + 2 ≤ 32768 }
        ensures made { dict_of self.new image.new ≡ appended (cell x) (dict_of self.old image.old) }
        ensures dp { self.new.ends.dp ≡ self.old.ends.dp + 2 }
        ensures rest { Outside image.old image.new }
    {
        self.put(image, &cell_bytes(x));
    }

    // Puts a name as an entry holds it.
    pub(crate) fn put_name(&mut self, image: &mut [u8; 65536], name: &[u8])
        requires { (self.old.ends.dp + length name.now ≤ 32768) × (Ascii name.now) }
        ensures made { dict_of self.new image.new ≡ appended (spelled name.now) (dict_of self.old image.old) }
        ensures dp { self.new.ends.dp ≡ self.old.ends.dp + length name.now }
        ensures rest { Outside image.old image.new }
    {
        // By the index, which tells the last byte: it is held with 128 added.
        for i in 0..name.len() {
            self.put(image, &[held_byte(name, i)]);
        }
    }

    // Appends bytes.
    pub fn append(
        &mut self,
        image: &mut [u8; 65536],
        bytes: &[u8],
        told: Place,
    ) -> Result<(), Fault>
        ensures did { Did (with_room (length bytes.now) told (dict_of self.old image.old) (appended bytes.now (dict_of self.old image.old))) (dict_of self.old image.old) result (dict_of self.new image.new) }
        ensures rest { Outside image.old image.new }
    {
        self.room(bytes.len(), told)?;
        self.put(image, bytes);
        Ok(())
    }
}
