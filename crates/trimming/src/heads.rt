// The heads of a vocabulary, and how they fall below an entry that is forgotten.
ghost use Rattle.std.specs.Prelude.{◌≡◌, ◌+◌, ◌*◌, ◌<◌, ◌≤◌, true, length, is_some};
ghost use Rattle.dictionary.specs.Lent.{Outside};
ghost use Rattle.dictionary.specs.Trim.{fall, fell, lands, threads, trim_voc, youngest_in};
ghost use Rattle.image.specs.Cells.{cell_at, set_cell};
ghost use Rattle.image.specs.Views.{low_of};
ghost use Rattle.trimming.specs.Chains.{Falls};

use dictionary::registers::Dictionary;
use entries::Entries;

// The dictionary as it is walked where the entry w is forgotten.
#[derive(Drop)]
pub(crate) struct Falling<'a> {
    pub(crate) entries: Entries<'a>,
    pub(crate) w: u16,
    ghost short: { length entries ≤ 32768 },
}

impl<'a> Falling<'a> {
    pub(crate) fn new(d: &Dictionary, image: &'a [u8; 65536], w: u16) -> Self
        ensures entries { result.entries ≡ low_of d.now.ends.dp image.now }
        ensures size { length result.entries ≡ d.now.ends.dp }
        ensures w { result.w ≡ w }
    {
        let entries = d.entries(image);
        Falling { entries, w }
    }

    // The first entry below w from a link down, or 0, which the head then holds; nothing if a link on the way is out of order. A
    // loop, as every walk along links.
    fn first_below(&self, head: u16) -> Option<u16>
        ensures { result ≡ fell self.now.entries self.now.w head }
    {
        let mut before = self.entries.end();
        let mut e = head;
        'links: while e >= self.w {
            if !self.entries.in_order(before, e) {
                return None;
            }
            before = e;
            e = self.entries.cell(e);
        }
        Some(e)
    }

    // The entry that a head names once it has moved down below w.
    #[tactic(auto, using(crate::proofs::FallLaws::fell_fall))]
    fn fallen(&self, head: u16) -> u16
        requires { is_some (fell self.now.entries self.now.w head) ≡ true }
        ensures { result ≡ fall (length self.now.entries) self.now.entries self.now.w head }
    {
        self.first_below(head).unwrap()
    }

    // Are the links from a head down in order, and the first entry below w too?
    fn falls(&self, head: u16) -> bool
        ensures { result ≡ lands self.now.entries (fell self.now.entries self.now.w head) }
    {
        match self.first_below(head) {
            Some(x) => x == 0 || self.entries.in_order(self.entries.end(), x),
            None => false,
        }
    }

    // Are those from the four heads of a vocabulary?
    pub(crate) fn threads_fall(&self, vocabulary: u16) -> bool
        requires { (256 ≤ vocabulary) × (vocabulary + 8 ≤ length self.now.entries) }
        ensures { result ≡ threads self.now.entries self.now.w vocabulary }
    {
        let heads = self.entries.heads(vocabulary);
        heads.iter().all(|&head| self.falls(head))
    }
}

// Moves the head at `a` down to its first entry below w.
fn lower(d: &Dictionary, image: &mut [u8; 65536], w: u16, a: u16)
    requires { (256 ≤ a) × ((a + 1 < d.now.ends.dp) × (is_some (fell (low_of d.now.ends.dp image.old) w (cell_at (low_of d.now.ends.dp image.old) a)) ≡ true)) }
    ensures bytes { low_of d.now.ends.dp image.new ≡ set_cell (low_of d.now.ends.dp image.old) a (fall (length (low_of d.now.ends.dp image.old)) (low_of d.now.ends.dp image.old) w (cell_at (low_of d.now.ends.dp image.old) a)) }
    ensures rest { Outside image.old image.new }
{
    let falling = Falling::new(d, image, w);
    let x = falling.fallen(falling.entries.cell(a));
    d.patch(image, a, x);
}

// The head of a thread, by its number.
fn head_of(vocabulary: u16, thread: u16) -> u16
    requires { (vocabulary ≤ 32768) × (thread < 4) }
    ensures { result ≡ vocabulary + 2 * thread }
{
    vocabulary + 2 * thread
}

// Moves the four heads of a vocabulary, by number: each is written, and the definition goes from the last.
pub(crate) fn lower_threads(d: &Dictionary, image: &mut [u8; 65536], w: u16, vocabulary: u16)
    requires { (256 ≤ vocabulary) × ((vocabulary + 8 ≤ d.now.ends.dp) × ((vocabulary + 8 ≤ w) × (Falls (low_of d.now.ends.dp image.old) w vocabulary 4))) }
    ensures bytes { low_of d.now.ends.dp image.new ≡ trim_voc w vocabulary 4 (low_of d.now.ends.dp image.old) }
    ensures rest { Outside image.old image.new }
{
    for k in (0..4).rev() {
        lower(d, image, w, head_of(vocabulary, k));
    }
}

// The youngest entry that a head of the vocabulary names.
pub(crate) fn youngest_in(entries: &Entries<'_>, vocabulary: u16) -> u16
    requires { (256 ≤ vocabulary) × ((vocabulary + 8 ≤ length entries.now) × (length entries.now ≤ 32768)) }
    ensures { result ≡ youngest_in vocabulary 4 entries.now }
{
    let [first, second, third, fourth] = entries.heads(vocabulary);
    first.max(second).max(third).max(fourth)
}
