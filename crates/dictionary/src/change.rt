// Changes of what is there.
ghost use Rattle.std.specs.Prelude.{◌≡◌, ◌+◌, ◌-◌, ◌<◌, ◌≤◌, length};
ghost use Rattle.dictionary.specs.Dict.{does_set, given_up, immediate_marked, marked, patched, with_context, with_current};
ghost use Rattle.dictionary.specs.Kept.{kept_end};
ghost use Rattle.dictionary.specs.Lent.{Changed, Outside, dict_of};
ghost use Rattle.entries.specs.Entries.{first_at};
ghost use Rattle.image.specs.Views.{low_of};

use super::code;
use super::registers::Dictionary;
use entries::IMMEDIATE;

// The count byte of an entry that becomes immediate.
#[tactic(auto, using(crate::proofs::Changing::or_is_marked))]
fn immediate(count: u8) -> u8
    ensures { result ≡ marked count }
{
    count | IMMEDIATE
}

impl Dictionary {
    // Writes a cell of the dictionary.
    pub fn patch(&self, image: &mut [u8; 65536], a: u16, x: u16)
        requires { (256 ≤ a) × (a + 1 < self.now.ends.dp) }
        ensures made { dict_of self.now image.new ≡ patched a x (dict_of self.now image.old) }
        ensures rest { Outside image.old image.new }
    {
        image::store(image, usize::from(a), x);
    }

    // Makes the newest entry immediate.
    pub fn mark_immediate(&self, image: &mut [u8; 65536])
        requires { (256 ≤ self.now.names.newest) × (self.now.names.newest + 2 < self.now.ends.dp) }
        ensures made { dict_of self.now image.new ≡ immediate_marked (dict_of self.now image.old) }
        ensures rest { Outside image.old image.new }
    {
        let count = usize::from(self.names.newest) + 2;
        image[count] = immediate(image[count]);
    }

    // Gives the newest entry, a created word, the DOES> code at an address.
    pub fn set_does(&self, image: &mut [u8; 65536], x: u16)
        requires { (256 ≤ self.now.names.newest) × (first_at (low_of self.now.ends.dp image.old) self.now.names.newest + 4 ≤ self.now.ends.dp) }
        ensures made { dict_of self.now image.new ≡ does_set x (dict_of self.now image.old) }
        ensures rest { Outside image.old image.new }
    {
        let first = self.entries(image).first_parameter(self.names.newest);
        self.patch(image, first - 2, code::DOES);
        self.patch(image, first + 2, x);
    }

    // Gives up the open entry, if any: DP goes back to its beginning.
    pub fn give_up(&mut self)
        ensures { Changed given_up self.old self.new }
    {
        self.ends.dp = self.names.kept_end(self.ends.dp);
        self.names.opened = 0;
    }

    // Searches that vocabulary first.
    pub fn seek(&mut self, vocabulary: u16)
        requires { (270 ≤ vocabulary) × ((vocabulary + 10 ≤ self.old.ends.dp) × (vocabulary + 10 ≤ kept_end self.old.ends.dp self.old.names.opened)) }
        ensures { Changed (with_context vocabulary) self.old self.new }
    {
        self.order.context = vocabulary;
    }

    // New entries join the vocabulary that is searched first.
    pub fn definitions(&mut self)
        ensures { Changed (λ D. with_current D.context D) self.old self.new }
    {
        self.order.current = self.order.context;
    }
}
