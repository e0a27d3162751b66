// The vocabulary chain, from VOC-LINK down, walked by loops: a link may be out of order, and the image is written between two steps,
// which an iterator that reads it forbids. 0 ends a chain, and names no entry, as in the image.
ghost use Rattle.std.specs.Prelude.{◌≡◌, ◌+◌, ◌-◌, ◌<◌, ◌≤◌, true, length, take};
ghost use Rattle.dictionary.specs.Lent.{Outside};
ghost use Rattle.dictionary.specs.Trim.{chain, chained, in_chain, left, link_of, trim_vocs, youngest};
ghost use Rattle.image.specs.Views.{low_of};
ghost use Rattle.trimming.specs.Chains.{Kept};

use super::heads::{Falling, lower_threads, youngest_in};
use dictionary::registers::Dictionary;

impl<'a> Falling<'a> {
    // May the vocabulary with the link k stand in the chain?
    #[tactic(auto, unfolding(dictionary::specs::Trim::in_chain))]
    fn in_chain(&self, before: u16, k: u16) -> bool
        requires { before ≤ length self.now.entries }
        ensures { result ≡ in_chain self.now.entries self.now.w before k }
    {
        if k < 266 || k >= before || k + 2 > before {
            return false;
        }
        k - 8 > self.w || k + 4 <= self.w && self.threads_fall(k - 8)
    }

    // May all vocabularies, from the youngest's link down?
    pub(crate) fn chain_falls(&self, voclink: u16) -> bool
        ensures { result ≡ chained (length self.now.entries + 1) self.now.entries self.now.w (length self.now.entries) voclink }
    {
        let mut before = self.entries.end();
        let mut k = voclink;
        'chain: while k != 0 {
            if !self.in_chain(before, k) {
                return false;
            }
            before = k - 8;
            k = self.entries.cell(k);
        }
        true
    }

    // The link of the youngest vocabulary that is not named above w.
    pub(crate) fn first_kept(&self, voclink: u16) -> u16
        requires { (self.now.w ≤ length self.now.entries) × (chained (length self.now.entries + 1) self.now.entries self.now.w (length self.now.entries) voclink ≡ true) }
        ensures link { result ≡ link_of (left self.now.w (chain (length self.now.entries) self.now.entries voclink)) }
        ensures kept { Kept self.now.entries self.now.w (length self.now.entries) result (left self.now.w (chain (length self.now.entries) self.now.entries voclink)) }
    {
        let mut k = voclink;
        'chain: while k > self.w + 8 {
            k = self.entries.cell(k);
        }
        k
    }
}

// Moves the heads of all vocabularies from the link `first` down; the youngest entry that a head then names.
pub(crate) fn lower_vocabularies(d: &Dictionary, image: &mut [u8; 65536], w: u16, first: u16) -> u16
    requires { (w ≤ d.now.ends.dp) × ((256 ≤ w) × (Kept (low_of d.now.ends.dp image.old) w d.now.ends.dp first (chain d.now.ends.dp (low_of d.now.ends.dp image.old) first))) }
    ensures bytes { low_of d.now.ends.dp image.new ≡ trim_vocs w (chain d.now.ends.dp (low_of d.now.ends.dp image.old) first) (low_of d.now.ends.dp image.old) }
    ensures newest { result ≡ youngest (chain d.now.ends.dp (low_of d.now.ends.dp image.old) first) (take (w - 2) (trim_vocs w (chain d.now.ends.dp (low_of d.now.ends.dp image.old) first) (low_of d.now.ends.dp image.old))) }
    ensures rest { Outside image.old image.new }
{
    let mut newest = 0;
    let mut k = first;
    'chain: while k != 0 {
        lower_threads(d, image, w, k - 8);
        let entries = d.entries(image);
        newest = youngest_in(&entries, k - 8).max(newest);
        k = entries.cell(k);
    }
    newest
}
