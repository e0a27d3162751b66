// Entries begun and joined. A cast loses nothing: a name has at most 31 bytes.
ghost use Rattle.std.specs.Prelude.{◌≡◌, ◌+◌, ◌-◌, ◌*◌, ◌<◌, ◌≤◌, [], ◌++◌, length, OnOk};
ghost use Rattle.dictionary.specs.Dict.{begun, colon_begun, defined, open_joined, vocabulary_defined, with_opened};
ghost use Rattle.dictionary.specs.Lent.{Changed, Did, Outside, dict_of, with_room};
ghost use Rattle.dictionary.specs.Begins.{head_joined, headed_by};
ghost use Rattle.entries.specs.Entries.{count_byte, spelled};
ghost use Rattle.entries.specs.Threads.{Ascii};
ghost use Rattle.image.specs.Cells.{at, cell, zeros};

use super::code;
use super::registers::Dictionary;
use entries::thread_of;
use fault::{Fault, Place};

// An entry up to its code cell: its view, 64 if it is immediate, its name, and its code.
#[derive(Clone, Copy)]
pub struct Header<'a> {
    pub view: u16,
    // A number and no bool: the definition takes any flags up to 64, and so must this.
    pub flags: u8,
    pub name: &'a [u8],
    pub code: u16,
    ghost flagged: { flags ≤ 64 },
    ghost named: { 1 ≤ length name.now },
    ghost short: { length name.now ≤ 31 },
    ghost text: { Ascii name.now },
}

impl<'a> Header<'a> {
    // The count byte: 128, the flags, and the name's length.
    fn count_byte(&self) -> u8
        ensures { result ≡ count_byte self.now.flags self.now.name.now }
    {
        128 + self.flags + self.name.len() as u8
    }
}

impl Dictionary {
    // The head of a thread of CURRENT.
    fn head_of(&self, thread: u16) -> u16
        requires { thread < 4 }
        ensures { result ≡ self.now.order.current + 2 * thread }
    {
        self.order.current + 2 * thread
    }

    // The dictionary's last cell.
    fn last_cell(&self) -> u16
        ensures { result ≡ self.now.ends.dp - 2 }
    {
        self.ends.dp - 2
    }

    // No entry is open any more.
    fn shut(&mut self)
        ensures { Changed (with_opened 0) self.old self.new }
    {
        self.names.opened = 0;
    }

    // The entry that begins next, by the address of its link cell.
    fn next_entry(&self) -> u16
        ensures { result ≡ self.now.ends.dp + 2 }
    {
        self.ends.dp + 2
    }

    // Puts a header: view, link, count byte, name, code.
    fn put_header(&mut self, image: &mut [u8; 65536], header: &Header<'_>)
        requires { self.old.ends.dp + 7 + length header.now.name.now ≤ 32768 }
        ensures made { dict_of self.new image.new ≡ headed_by header.now.view header.now.flags (spelled header.now.name.now) header.now.code (dict_of self.old image.old) }
        ensures dp { self.new.ends.dp ≡ self.old.ends.dp + 7 + length header.now.name.now }
        ensures rest { Outside image.old image.new }
    {
        let name = header.name;
        let head = self.head_of(thread_of(name));
        let link = self.entries(image).cell(head);
        self.put_cell(image, header.view);
        self.put_cell(image, link);
        self.put(image, &[header.count_byte()]);
        self.put_name(image, name);
        self.put_cell(image, header.code);
    }

    // Begins an entry, which does not join yet: with HERE as its first parameter cell, and the bytes of the others.
    fn begin(
        &mut self,
        image: &mut [u8; 65536],
        header: &Header<'_>,
        rest: &[u8],
        told: Place,
    ) -> Result<(), Fault>
        requires { length rest.now ≤ 10 }
        ensures did { Did (with_room (9 + length header.now.name.now + length rest.now) told (dict_of self.old image.old) (begun header.now.view header.now.flags (spelled header.now.name.now) header.now.code rest.now (dict_of self.old image.old))) (dict_of self.old image.old) result (dict_of self.new image.new) }
        ensures end { OnOk result (self.new.ends.dp ≡ self.old.ends.dp + 9 + length header.now.name.now + length rest.now) }
        ensures rest { Outside image.old image.new }
    {
        self.room(9 + header.name.len() + rest.len(), told)?;
        let here = self.ends.here;
        self.put_header(image, header);
        self.put_cell(image, here);
        self.put(image, rest);
        Ok(())
    }

    // Makes the entry e the youngest of a thread of CURRENT, and the newest of all.
    fn join(&mut self, image: &mut [u8; 65536], thread: u16, e: u16)
        requires { thread < 4 }
        ensures made { dict_of self.new image.new ≡ head_joined thread e (dict_of self.old image.old) }
        ensures dp { self.new.ends.dp ≡ self.old.ends.dp }
        ensures rest { Outside image.old image.new }
    {
        let head = self.head_of(thread);
        self.patch(image, head, e);
        self.names.newest = e;
    }

    // Makes an entry, which joins at once.
    pub fn define(
        &mut self,
        image: &mut [u8; 65536],
        header: &Header<'_>,
        rest: &[u8],
        told: Place,
    ) -> Result<(), Fault>
        requires { length rest.now ≤ 10 }
        ensures did { Did (with_room (9 + length header.now.name.now + length rest.now) told (dict_of self.old image.old) (defined header.now.view header.now.flags (spelled header.now.name.now) header.now.code rest.now (dict_of self.old image.old))) (dict_of self.old image.old) result (dict_of self.new image.new) }
        ensures end { OnOk result (self.new.ends.dp ≡ self.old.ends.dp + 9 + length header.now.name.now + length rest.now) }
        ensures rest { Outside image.old image.new }
    {
        let e = self.next_entry();
        self.begin(image, header, rest, told)?;
        self.join(image, thread_of(header.name), e);
        Ok(())
    }

    // Begins the entry of a colon word, which stays open; CURRENT is searched first from now on.
    pub fn begin_colon(
        &mut self,
        image: &mut [u8; 65536],
        view: u16,
        name: &[u8],
        told: Place,
    ) -> Result<(), Fault>
        requires shut { self.old.names.opened ≡ 0 }
        requires name { (1 ≤ length name.now) × ((length name.now ≤ 31) × (Ascii name.now)) }
        ensures did { Did (with_room (9 + length name.now) told (dict_of self.old image.old) (colon_begun view (spelled name.now) (dict_of self.old image.old))) (dict_of self.old image.old) result (dict_of self.new image.new) }
        ensures rest { Outside image.old image.new }
    {
        let e = self.next_entry();
        let header = Header {
            view,
            flags: 0,
            name,
            code: code::COLON,
        };
        self.begin(image, &header, &[], told)?;
        self.order.context = self.order.current;
        self.names.opened = e;
        Ok(())
    }

    // Joins the open entry.
    pub fn join_open(&mut self, image: &mut [u8; 65536])
        requires { 1 ≤ self.old.names.opened }
        ensures made { dict_of self.new image.new ≡ open_joined (dict_of self.old image.old) }
        ensures rest { Outside image.old image.new }
    {
        let e = self.names.opened;
        let first = self.entries(image).byte(e + 3);
        self.join(image, u16::from(first % 4), e);
        self.shut();
    }

    // Makes a vocabulary.
    pub fn define_vocabulary(
        &mut self,
        image: &mut [u8; 65536],
        view: u16,
        name: &[u8],
        told: Place,
    ) -> Result<(), Fault>
        requires { (1 ≤ length name.now) × ((length name.now ≤ 31) × (Ascii name.now)) }
        ensures did { Did (with_room (19 + length name.now) told (dict_of self.old image.old) (vocabulary_defined view (spelled name.now) (dict_of self.old image.old))) (dict_of self.old image.old) result (dict_of self.new image.new) }
        ensures rest { Outside image.old image.new }
    {
        let mut heads = [0; 10];
        image::store(&mut heads, 8, self.names.voclink);
        let header = Header {
            view,
            flags: 0,
            name,
            code: code::VOCABULARY,
        };
        self.define(image, &header, &heads, told)?;
        self.names.voclink = self.last_cell();
        Ok(())
    }
}
