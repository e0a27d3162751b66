// One entry: its bytes, its cells, its name. Any DP may be seen, as `byte` and `cell` promise; what walks links asks for one up to
// 32,768. Which addresses may be asked is a clause: an address type would be made and unmade at every read.
ghost use Rattle.std.specs.Prelude.{◌≡◌, ◌+◌, ◌<◌, ◌≤◌, length, max};
ghost use Rattle.entries.specs.Entries.{first_at, is_immediate, is_named, name_length, spelled, token_of};
ghost use Rattle.entries.specs.Threads.{Ascii};
ghost use Rattle.image.specs.Cells.{at, cell_at};
ghost use Rattle.image.specs.Views.{low_of};

use super::name::held_byte;
use image::fetch;
use std::marker::Model;

// What is added to the count byte of an immediate entry.
pub const IMMEDIATE: u8 = 64;

// The dictionary in a lent image, to be read. Clauses see its bytes up to DP; those below 256 are 0 in them.
#[derive(Drop)]
pub struct Entries<'a> {
    image: &'a [u8; 65536],
    dp: u16,
}

impl<'a> Model for Entries<'a> {
    ghost use Rattle.std.specs.Prelude.{◌≡◌, ℕ, ◌<◌, List, length};
    ghost use Rattle.image.specs.Views.{low_of};

    ghost Value = { List ℕ };

    ghost view = { λ e. low_of e.dp e.image.now };

    ghost invariant = { λ e. (e.dp < 65536) × (length e.image.now ≡ 65536) };
}

impl<'a> Entries<'a> {
    #[tactic(auto, using(crate::proofs::Reading::length_seen))]
    pub fn new(image: &'a [u8; 65536], dp: u16) -> Self
        ensures bytes { result ≡ low_of dp image.now }
        ensures size { length result ≡ max 256 dp }
    {
        Entries { image, dp }
    }

    // Where the dictionary ends: DP, or 256 if DP lies below.
    #[tactic(auto, using(crate::proofs::Reading::length_seen))]
    pub fn end(&self) -> u16
        ensures end { result ≡ length self.now }
        ensures low { 256 ≤ result }
    {
        self.dp.max(256)
    }

    // A byte of the dictionary.
    #[tactic(auto, using(crate::proofs::Reading::seen_at))]
    pub fn byte(&self, a: u16) -> u8
        requires { (256 ≤ a) × (a < length self.now) }
        ensures { result ≡ at self.now a }
    {
        self.image[usize::from(a)]
    }

    // A cell of the dictionary.
    #[tactic(auto, using(crate::proofs::Reading::seen_cell))]
    pub fn cell(&self, a: u16) -> u16
        requires { (256 ≤ a) × (a + 1 < length self.now) }
        ensures { result ≡ cell_at self.now a }
    {
        let image = self.image;
        fetch(image, usize::from(a))
    }

    // The count byte of an entry.
    #[tactic(auto, using(crate::proofs::Reading::seen_at))]
    fn count(&self, entry: u16) -> u8
        requires { (256 ≤ entry) × (entry + 2 < length self.now) }
        ensures { result ≡ at self.now (entry + 2) }
    {
        self.image[usize::from(entry) + 2]
    }

    // The length of an entry's name.
    fn name_length(&self, entry: u16) -> u16
        requires { (256 ≤ entry) × (entry + 2 < length self.now) }
        ensures { result ≡ name_length self.now entry }
    {
        u16::from(self.count(entry) % 32)
    }

    // Where an entry's first parameter cell lies.
    #[tactic(auto, unfolding(crate::specs::Entries::first_at))]
    pub fn first_parameter(&self, entry: u16) -> u16
        requires { (256 ≤ entry) × ((entry + 2 < length self.now) × (length self.now ≤ 32768)) }
        ensures first { result ≡ first_at self.now entry }
        ensures above { entry + 5 ≤ result }
    {
        entry + 5 + self.name_length(entry)
    }

    // An entry's token: the address of its code cell.
    pub fn token_of(&self, entry: u16) -> u16
        requires { (256 ≤ entry) × ((entry + 2 < length self.now) × (length self.now ≤ 32768)) }
        ensures { result ≡ token_of self.now entry }
    {
        entry + 3 + self.name_length(entry)
    }

    // Is an entry immediate?
    pub fn is_immediate(&self, entry: u16) -> bool
        requires { (256 ≤ entry) × (entry + 2 < length self.now) }
        ensures { result ≡ is_immediate self.now entry }
    {
        self.count(entry) / IMMEDIATE % 2 == 1
    }

    // Is this the name of an entry?
    pub(crate) fn is_named(&self, entry: u16, name: &[u8]) -> bool
        requires { (256 ≤ entry) × ((first_at self.now entry + 2 ≤ length self.now) × (Ascii name.now)) }
        ensures { result ≡ is_named self.now entry (spelled name.now) }
    {
        if usize::from(self.name_length(entry)) != name.len() {
            return false;
        }
        let start = usize::from(entry) + 3;
        // By the index, which counts both sides: `all` leaves open that each of its bytes lies in the image.
        for i in 0..name.len() {
            if self.image[start + i] != held_byte(name, i) {
                return false;
            }
        }
        true
    }
}
