// The kernel words, and the dictionary that boot leaves.
#![tactic(auto)]

ghost use Rattle.std.specs.Prelude.{◌≡◌, ◌+◌, ◌-◌, ◌*◌, ◌%◌, ◌≤◌, true, cond, [], length};
ghost use Rattle.dictionary.specs.Dict.{defined};
ghost use Rattle.dictionary.specs.Lent.{Outside, dict_of};
ghost use Rattle.entries.specs.Entries.{spelled};
ghost use Rattle.entries.specs.Threads.{Ascii};
ghost use Rattle.kernel.specs.Boot.{boot_dict, forth_alone, with_kernel};
ghost use Rattle.kernel.specs.Rows.{are_rows, rows_of};

use dictionary::registers::{DATA_SPACE, Dictionary, Ends, Names, SearchOrder};
use dictionary::{FORTH, Header};
use entries::IMMEDIATE;
use fault::Place;

// FORTH's entry, from 256 on.
const FORTH_ENTRY: &[u8; 24] = b"\0\0\0\0\x85FORT\xc8\xcc\0\0\x85\0\0\0\0\x02\x01\0\0\0\0";

// The kernel words in their order: the name, and whether the word is immediate.
const KERNEL: [(&[u8], bool); 105] = [
    (b"DUP", false),
    (b"DROP", false),
    (b"SWAP", false),
    (b"OVER", false),
    (b"ROT", false),
    (b"?DUP", false),
    (b"DEPTH", false),
    (b"PICK", false),
    (b"ROLL", false),
    (b"+", false),
    (b"-", false),
    (b"*", false),
    (b"/", false),
    (b"MOD", false),
    (b"/MOD", false),
    (b"*/", false),
    (b"1+", false),
    (b"1-", false),
    (b"2/", false),
    (b"NEGATE", false),
    (b"ABS", false),
    (b"MIN", false),
    (b"MAX", false),
    (b"AND", false),
    (b"OR", false),
    (b"XOR", false),
    (b"NOT", false),
    (b"=", false),
    (b"<", false),
    (b">", false),
    (b"0=", false),
    (b"0<", false),
    (b"U<", false),
    (b"@", false),
    (b"!", false),
    (b"+!", false),
    (b"C@", false),
    (b"C!", false),
    (b"CMOVE", false),
    (b"FILL", false),
    (b"BASE", false),
    (b"DECIMAL", false),
    (b"HEX", false),
    (b"PAD", false),
    (b"HERE", false),
    (b"ALLOT", false),
    (b",", false),
    (b"C,", false),
    (b".", false),
    (b"U.", false),
    (b"EMIT", false),
    (b"TYPE", false),
    (b"CR", false),
    (b"SPACES", false),
    (b"BLOCK", false),
    (b"UPDATE", false),
    (b"FLUSH", false),
    (b"LOAD", false),
    (b"EXECUTE", false),
    (b"'", false),
    (b">BODY", false),
    (b"(", true),
    (b"ABORT", false),
    (b":", false),
    (b";", true),
    (b"CREATE", false),
    (b"VARIABLE", false),
    (b"CONSTANT", false),
    (b"VOCABULARY", false),
    (b"DEFINITIONS", false),
    (b"IMMEDIATE", false),
    (b"FORGET", false),
    (b"[", true),
    (b"]", false),
    (b"LITERAL", true),
    (b"[']", true),
    (b"[COMPILE]", true),
    (b"COMPILE", false),
    (b"DOES>", true),
    (b"IF", true),
    (b"ELSE", true),
    (b"THEN", true),
    (b"BEGIN", true),
    (b"WHILE", true),
    (b"REPEAT", true),
    (b"UNTIL", true),
    (b"DO", true),
    (b"LOOP", true),
    (b"+LOOP", true),
    (b".\"", true),
    (b"EXIT", false),
    (b">R", false),
    (b"R>", false),
    (b"R@", false),
    (b"I", false),
    (b"J", false),
    (b"LEAVE", false),
    (b"(LIT)", false),
    (b"BRANCH", false),
    (b"?BRANCH", false),
    (b"(DO)", false),
    (b"(LOOP)", false),
    (b"(+LOOP)", false),
    (b"(;CODE)", false),
    (b"(.\")", false),
];

// The dictionary that boot leaves, written into the image.
pub fn boot(image: &mut [u8; 65536]) -> Dictionary
    ensures made { dict_of result image.new ≡ boot_dict }
    ensures rest { Outside image.old image.new }
{
    let mut d = forth_alone(image);
    kernel_words(&mut d, image, &KERNEL);
    d
}

// FORTH, which is its own first entry.
fn forth_alone(image: &mut [u8; 65536]) -> Dictionary
    ensures made { dict_of result image.new ≡ forth_alone }
    ensures dp { result.ends.dp ≡ 280 }
    ensures rest { Outside image.old image.new }
{
    image::append(image, 256, FORTH_ENTRY);
    Dictionary {
        ends: Ends {
            dp: 280,
            here: DATA_SPACE,
        },
        names: Names {
            newest: 258,
            voclink: 278,
            opened: 0,
        },
        order: SearchOrder {
            context: FORTH,
            current: FORTH,
        },
    }
}

fn flags_of(immediate: bool) -> u8
    ensures flags { result ≡ cond immediate 64 0 }
    ensures within { result ≤ 64 }
{
    if immediate { IMMEDIATE } else { 0 }
}

// Defines the words of a table, numbered from 1. The number is counted beside the rows: by `enumerate` it is an index to be
// cast, and by a `zip` one more list to bound.
fn kernel_words(d: &mut Dictionary, image: &mut [u8; 65536], table: &[(&[u8], bool)])
    requires space { d.old.ends.dp + 40 * length table.now ≤ 32768 }
    requires rows { are_rows table.now ≡ true }
    ensures made { dict_of d.new image.new ≡ with_kernel 1 (rows_of table.now) (dict_of d.old image.old) }
    ensures rest { Outside image.old image.new }
{
    let mut number = 1;
    for (name, immediate) in table {
        let header = Header {
            view: 0,
            flags: flags_of(*immediate),
            name: *name,
            code: number,
        };
        kernel_word(d, image, &header);
        number += 1;
    }
}

// Defines a kernel word, which has space.
fn kernel_word(d: &mut Dictionary, image: &mut [u8; 65536], header: &Header<'_>)
    requires { d.old.ends.dp + 9 + length header.now.name.now ≤ 32768 }
    ensures made { dict_of d.new image.new ≡ defined header.now.view header.now.flags (spelled header.now.name.now) header.now.code [] (dict_of d.old image.old) }
    ensures dp { d.new.ends.dp ≡ d.old.ends.dp + 9 + length header.now.name.now }
    ensures rest { Outside image.old image.new }
{
    d.define(image, header, &[], Place::nowhere()).unwrap();
}
