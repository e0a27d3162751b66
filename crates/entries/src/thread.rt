// Threads: from a head down the links, youngest entry first. A link of 0 ends one, as it lies in the image; here it becomes None.
// Which addresses a method may be asked is a clause: an address type would be made and unmade at every link that is read.
ghost use Rattle.std.specs.Prelude.{◌≡◌, suc, ◌+◌, ◌≤◌, length, IfOk, IfSome};
ghost use Rattle.entries.specs.Entries.{head_at, spelled};
ghost use Rattle.entries.specs.Search.{in_order, search_in, walk};
ghost use Rattle.entries.specs.Threads.{Ascii, FindsYoungest, IsInOrder, answered, heads_of, linked};
ghost use Rattle.image.specs.Cells.{at, cell_at};

use super::entry::Entries;
use super::name::thread_of;
use fault::{Fault, Place, Reason};

impl<'a> Entries<'a> {
    // Is a link in order: at 258 or above, below the one before, and its entry whole below DP?
    pub fn in_order(&self, before: u16, e: u16) -> bool
        requires { (before ≤ length self.now) × (length self.now ≤ 32768) }
        ensures { result ≡ in_order self.now (length self.now) before e }
    {
        let end = self.end();
        e >= 258 && e < before && e + 7 <= end && self.first_parameter(e) + 2 <= end
    }

    // The entry that a link names, `before` being the entry that holds the link (DP for a head); nothing at a thread's end.
    #[tactic(auto, using(crate::proofs::Walks::in_order_is))]
    pub fn next_in_thread(&self, before: u16, link: u16, told: Place) -> Result<Option<u16>, Fault>
        requires { (before ≤ length self.now) × (length self.now ≤ 32768) }
        ensures answer { result ≡ answered told (linked self.now (length self.now) before link) }
        ensures entry { IfOk result (λ found. IfSome found (IsInOrder self.now before)) }
    {
        if link == 0 {
            return Ok(None);
        }
        if !self.in_order(before, link) {
            return Err(Fault::new(Reason::BrokenLink, told));
        }
        Ok(Some(link))
    }

    // The youngest entry of that name in the thread from a head down.
    fn search_thread(&self, head: u16, name: &[u8], told: Place) -> Result<Option<u16>, Fault>
        requires { (length self.now ≤ 32768) × (Ascii name.now) }
        ensures found { result ≡ answered told (walk (suc (length self.now)) self.now (length self.now) (spelled name.now) (length self.now) head) }
        ensures youngest { FindsYoungest told self.now (spelled name.now) head result }
    {
        // A loop, no iterator: one that may be refused answers a Result at each step, to be taken apart in every walk.
        let mut before = self.end();
        let mut link = head;
        'links: while let Some(e) = self.next_in_thread(before, link, told)? {
            if self.is_named(e, name) {
                return Ok(Some(e));
            }
            before = e;
            link = self.cell(e);
        }
        Ok(None)
    }

    // The four heads of a vocabulary.
    pub fn heads(&self, vocabulary: u16) -> [u16; 4]
        requires { (256 ≤ vocabulary) × ((vocabulary + 8 ≤ length self.now) × (length self.now ≤ 32768)) }
        ensures { result ≡ heads_of self.now vocabulary }
    {
        [
            self.cell(vocabulary),
            self.cell(vocabulary + 2),
            self.cell(vocabulary + 4),
            self.cell(vocabulary + 6),
        ]
    }

    // The youngest entry of that name in a vocabulary.
    pub fn search_vocabulary(
        &self,
        vocabulary: u16,
        name: &[u8],
        told: Place,
    ) -> Result<Option<u16>, Fault>
        requires inside { (256 ≤ vocabulary) × ((vocabulary + 8 ≤ length self.now) × (length self.now ≤ 32768)) }
        requires name { (1 ≤ length name.now) × (Ascii name.now) }
        ensures found { result ≡ answered told (search_in self.now vocabulary name.now) }
        ensures youngest { FindsYoungest told self.now (spelled name.now) (cell_at self.now (head_at vocabulary (at (spelled name.now) 0))) result }
    {
        let head = self.cell(vocabulary + 2 * thread_of(name));
        self.search_thread(head, name, told)
    }
}
