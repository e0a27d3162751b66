// The dictionary's own registers. All seats share its ends and its names; each seat has a search order of its own.
ghost use Rattle.std.specs.Prelude.{◌≡◌, ◌+◌, ◌<◌, ◌≤◌, ◌||◌, length, ◌==◌};
ghost use Rattle.dictionary.specs.Kept.{kept_end};
ghost use Rattle.image.specs.Views.{low_of};

use entries::Entries;

// Where data space begins.
pub const DATA_SPACE: u16 = 34048;

// Where the dictionary ends (DP) and where data space ends (HERE).
#[derive(Clone, Copy, PartialEq, Eq)]
pub struct Ends {
    pub dp: u16,
    pub here: u16,
}

// The newest entry, the youngest vocabulary link (VOC-LINK), and the entry that `:` began, or 0, which is no entry's address: registers
// are plain numbers.
#[derive(Clone, Copy, PartialEq, Eq)]
pub struct Names {
    pub newest: u16,
    pub voclink: u16,
    pub opened: u16,
}

impl Names {
    // Where a dictionary that ends at DP ends if the open entry is given up.
    pub fn kept_end(&self, dp: u16) -> u16
        ensures { result ≡ kept_end dp self.now.opened }
    {
        if self.opened == 0 {
            dp
        } else {
            self.opened.saturating_sub(2)
        }
    }
}

// CONTEXT and CURRENT, each by the address of the vocabulary's first head.
#[derive(Clone, Copy, PartialEq, Eq)]
pub struct SearchOrder {
    pub context: u16,
    pub current: u16,
}

impl SearchOrder {
    // Is a vocabulary CONTEXT or CURRENT?
    pub(crate) fn has(&self, vocabulary: u16) -> bool
        ensures { result ≡ (vocabulary == self.now.context || vocabulary == self.now.current) }
    {
        vocabulary == self.context || vocabulary == self.current
    }
}

// All of them. CONTEXT and CURRENT lie below DP, and below the open entry's beginning, to which DP may go back.
#[derive(Clone, Copy)]
pub struct Dictionary {
    pub ends: Ends,
    pub names: Names,
    pub order: SearchOrder,
    ghost dp_low: { 280 ≤ ends.dp },
    ghost dp_high: { ends.dp ≤ 32768 },
    ghost here_low: { 34048 ≤ ends.here },
    ghost context_low: { 270 ≤ order.context },
    ghost context_high: { order.context + 10 ≤ ends.dp },
    ghost current_low: { 270 ≤ order.current },
    ghost current_high: { order.current + 10 ≤ ends.dp },
    ghost opened_high: { names.opened + 3 < ends.dp },
    ghost dp_kept: { 280 ≤ kept_end ends.dp names.opened },
    ghost context_kept: { order.context + 10 ≤ kept_end ends.dp names.opened },
    ghost current_kept: { order.current + 10 ≤ kept_end ends.dp names.opened },
}

impl Dictionary {
    // Its entries, in the image that is lent.
    pub fn entries<'a>(&self, image: &'a [u8; 65536]) -> Entries<'a>
        ensures bytes { result ≡ low_of self.now.ends.dp image.now }
        ensures size { length result ≡ self.now.ends.dp }
    {
        Entries::new(image, self.ends.dp)
    }
}
