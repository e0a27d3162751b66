// FORGET: find, ask, trim.
ghost use Rattle.std.specs.Prelude.{◌≡◌, ◌+◌, ◌-◌, ◌≤◌, true, cond, length, nat_le, nat_lt};
ghost use Rattle.dictionary.specs.Lent.{Did, Outside, dict_of};
ghost use Rattle.dictionary.specs.Trim.{can_forget, forgotten, ordered};
ghost use Rattle.entries.specs.Entries.{body_of, first_at, forth};
ghost use Rattle.entries.specs.Search.{search_in};
ghost use Rattle.entries.specs.Threads.{Ascii, answered};
ghost use Rattle.image.specs.Cells.{cell_at};
ghost use Rattle.image.specs.Views.{low_of};
ghost use Rattle.trimming.specs.Asks.{in_order_for, orders_asked, trimmed_at};

use super::chain::lower_vocabularies;
use super::heads::Falling;
use dictionary::FORTH;
use dictionary::registers::{DATA_SPACE, Dictionary, Ends, Names};
use fault::{Fault, Place, Reason};

// The word that FORGET finds: in CURRENT only.
pub fn find(
    d: &Dictionary,
    image: &[u8; 65536],
    name: &[u8],
    told: Place,
) -> Result<Option<u16>, Fault>
    requires { (1 ≤ length name.now) × (Ascii name.now) }
    ensures { result ≡ answered told (search_in (low_of d.now.ends.dp image.now) d.now.order.current name.now) }
{
    d.entries(image)
        .search_vocabulary(d.order.current, name, told)
}

// Does a vocabulary lie whole below w's beginning?
fn lies_below(vocabulary: u16, w: u16) -> bool
    requires { vocabulary ≤ 32768 }
    ensures { result ≡ nat_le (vocabulary + 12) w }
{
    vocabulary + 12 <= w
}

// Is all in order that is walked where w, which is in order, is forgotten?
#[tactic(auto, unfolding(dictionary::specs::Trim::can_forget))]
fn all_in_order(d: &Dictionary, image: &[u8; 65536], w: u16) -> bool
    requires { ordered (low_of d.now.ends.dp image.now) (length (low_of d.now.ends.dp image.now)) w ≡ true }
    ensures { result ≡ can_forget w (dict_of d.now image.now) }
{
    let context = d.order.context;
    lies_below(d.order.current, w)
        && (context > w || lies_below(context, w))
        && Falling::new(d, image, w).chain_falls(d.names.voclink)
}

// Are the links in order that are walked where w is forgotten? Writes nothing.
pub fn can_trim(
    d: &Dictionary,
    image: &[u8; 65536],
    fence: u16,
    w: u16,
    told: Place,
) -> Result<(), Fault>
    ensures { result ≡ orders_asked fence w told (dict_of d.now image.now) }
{
    if !d.entries(image).in_order(d.ends.dp, w) || w >= fence && !all_in_order(d, image, w) {
        return Err(Fault::new(Reason::BrokenLink, told));
    }
    Ok(())
}

// Where data space ended when the entry w began.
fn body_of(d: &Dictionary, image: &[u8; 65536], w: u16) -> u16
    requires { (256 ≤ w) × (first_at (low_of d.now.ends.dp image.now) w + 2 ≤ d.now.ends.dp) }
    ensures { result ≡ body_of (low_of d.now.ends.dp image.now) w }
{
    let entries = d.entries(image);
    entries.cell(entries.first_parameter(w))
}

// Where the dictionary and data space ended when the entry w began.
fn ends_before(d: &Dictionary, image: &[u8; 65536], w: u16) -> Ends
    requires { (256 ≤ w) × (first_at (low_of d.now.ends.dp image.now) w + 2 ≤ d.now.ends.dp) }
    ensures dp { result.dp ≡ w - 2 }
    ensures here { result.here ≡ body_of (low_of d.now.ends.dp image.now) w }
{
    Ends {
        dp: w - 2,
        here: body_of(d, image, w),
    }
}

// The names that stay: the newest entry, the first vocabulary link, and no open entry.
fn trim_names(names: &mut Names, newest: u16, first: u16)
    ensures newest { names.new.newest ≡ newest }
    ensures voclink { names.new.voclink ≡ first }
    ensures shut { names.new.opened ≡ 0 }
{
    *names = Names {
        newest,
        voclink: first,
        opened: 0,
    };
}

// The vocabulary that is searched first once w is forgotten: FORTH where it was named above w.
fn context_below(context: u16, w: u16) -> u16
    ensures { result ≡ cond (nat_lt w context) forth context }
{
    if context > w { FORTH } else { context }
}

// Forgets w and all that is younger.
fn forget(d: &mut Dictionary, image: &mut [u8; 65536], w: u16)
    requires { (can_forget w (dict_of d.old image.old) ≡ true) × (34048 ≤ cell_at (low_of d.old.ends.dp image.old) (first_at (low_of d.old.ends.dp image.old) w)) }
    ensures trimmed { dict_of d.new image.new ≡ forgotten w (dict_of d.old image.old) }
    ensures rest { Outside image.old image.new }
{
    let ends = ends_before(d, image, w);
    let first = Falling::new(d, image, w).first_kept(d.names.voclink);
    let newest = lower_vocabularies(d, image, w, first);
    trim_names(&mut d.names, newest, first);
    d.ends = ends;
    d.order.context = context_below(d.order.context, w);
}

// Forgets w and all that is younger, if data space can go back (22) and w is not the kernel's (23).
pub fn trim(
    d: &mut Dictionary,
    image: &mut [u8; 65536],
    fence: u16,
    w: u16,
    told: Place,
) -> Result<(), Fault>
    requires { in_order_for fence w (dict_of d.old image.old) ≡ true }
    ensures did { Did (trimmed_at fence w told (dict_of d.old image.old)) (dict_of d.old image.old) result (dict_of d.new image.new) }
    ensures rest { Outside image.old image.new }
{
    let body = body_of(d, image, w);
    if !(DATA_SPACE..=d.ends.here).contains(&body) {
        return Err(Fault::new(Reason::BadToken, told));
    }
    if w < fence {
        return Err(Fault::new(Reason::BelowFence, told));
    }
    forget(d, image, w);
    Ok(())
}
