// Vocabularies: the chain of them, from VOC-LINK down. A link of 0 ends it, as it lies in the image; here it becomes None. It is
// walked by a loop, as a thread is.
ghost use Rattle.std.specs.Prelude.{◌≡◌, ◌+◌, ◌-◌, ◌<◌, ◌≤◌, ◌&&◌, IfOk, IfSome, nat_le};
ghost use Rattle.dictionary.specs.Kept.{kept_end};
ghost use Rattle.dictionary.specs.Lent.{Did, dict_of};
ghost use Rattle.entries.specs.Threads.{answered};
ghost use Rattle.dictionary.specs.Seeks.{chain_asked, sought, vocabulary_linked};

use super::FORTH;
use super::registers::Dictionary;
use fault::{Fault, Place, Reason};

// The vocabulary link that a link names, `before` being the one that holds it (DP for VOC-LINK); nothing at the chain's end.
pub fn next_vocabulary(dp: u16, before: u16, link: u16, told: Place) -> Result<Option<u16>, Fault>
    requires { (dp ≤ 32768) × (before ≤ dp) }
    ensures answer { result ≡ answered told (vocabulary_linked dp before link) }
    ensures link { IfOk result (λ found. IfSome found (λ k. (266 ≤ k) × ((k < before) × (k + 2 ≤ dp)))) }
{
    if link == 0 {
        return Ok(None);
    }
    if link < 266 || link >= before || link + 2 > dp {
        return Err(Fault::new(Reason::BrokenLink, told));
    }
    Ok(Some(link))
}

// The vocabulary of a link, by the address of its first head.
fn vocabulary_of(link: u16) -> u16
    requires { 8 ≤ link }
    ensures { result ≡ link - 8 }
{
    link - 8
}

// Is the vocabulary on the chain?
fn is_on_chain(
    d: &Dictionary,
    image: &[u8; 65536],
    vocabulary: u16,
    told: Place,
) -> Result<bool, Fault>
    ensures { result ≡ chain_asked vocabulary told (dict_of d.now image.now) }
{
    let entries = d.entries(image);
    let mut found = false;
    let mut before = d.ends.dp;
    let mut link = d.names.voclink;
    'chain: while let Some(k) = next_vocabulary(d.ends.dp, before, link, told)? {
        found |= vocabulary == vocabulary_of(k);
        before = k;
        link = entries.cell(k);
    }
    Ok(found)
}

// Does a vocabulary lie behind FORTH's beginning, and stay if the open entry is given up?
fn stays(d: &Dictionary, vocabulary: u16) -> bool
    ensures { result ≡ (nat_le 270 vocabulary && nat_le (vocabulary + 10) (kept_end d.now.ends.dp d.now.names.opened)) }
{
    let end = d.names.kept_end(d.ends.dp);
    (FORTH..=end - 10).contains(&vocabulary)
}

// Searches a vocabulary first, if it is on the chain and stays.
pub fn seek(
    d: &mut Dictionary,
    image: &[u8; 65536],
    vocabulary: u16,
    told: Place,
) -> Result<(), Fault>
    ensures { Did (sought vocabulary told (dict_of d.old image.now)) (dict_of d.old image.now) result (dict_of d.new image.now) }
{
    if !is_on_chain(d, image, vocabulary, told)? || !stays(d, vocabulary) {
        return Err(Fault::new(Reason::BadToken, told));
    }
    d.seek(vocabulary);
    Ok(())
}
