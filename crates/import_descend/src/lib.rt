// From a place to the result that comes first, the atoms on the way put on the list.
#![tactic(auto)]

ghost use Rattle.std.specs.Prelude.{◌≡◌};
ghost use Rattle.import_found.specs.Places.{xor};
ghost use Rattle.import_descend.specs.Walks.{AtomReady, Enters, Starting, none_found, Descends};

use import_going::start::{Spot, decided};
use import_list::{Entry, push};
use import_look::look;

// So many entries suffice for every text.
pub const ENTRIES: usize = 131072;

// A result, and how many entries are on the list.
#[derive(Clone, Copy)]
pub struct Down {
    pub count: usize,
    pub at: usize,
}

// What is decided for the outcome that is written first.
pub fn first_value(first: bool, sign: bool) -> bool
    ensures { result ≡ xor first sign }
{
    if first { !sign } else { sign }
}

// An atom goes on the list, and its first outcome comes next.
fn enter(text: &[u8], e: Entry, list: &mut [u64], n: usize) -> Spot
    requires { AtomReady text.now e list.old n }
    ensures { Enters text.now e list.old n result list.new }
{
    if e.mask >= 4294967296 {
        return Spot::Deep;
    }
    if e.count > 32 {
        return Spot::Deep;
    }
    let t = look(text, e.at);
    push(list, n, e);
    decided(text, e.at, first_value(t.first, e.sign), e.mask, e.count)
}

fn nothing() -> Down
    ensures { result ≡ none_found }
{
    Down { count: 0, at: 0 }
}

// The result that comes first from a place on.
pub fn descend(text: &[u8], spot: Spot, list: &mut [u64], count: usize) -> Down
    requires { Starting text.now spot list.old count }
    ensures { Descends text.now spot list.old count result list.new }
{
    let mut s = spot;
    for n in count..=list.len() {
        match s {
            Spot::Atom(at, sign, mask, deep) => {
                if n >= list.len() {
                    return nothing();
                }
                let e = Entry {
                    at,
                    sign,
                    mask,
                    count: deep,
                    both: false,
                };
                s = enter(text, e, list, n);
            }
            Spot::Result(i) => return Down { count: n, at: i },
            Spot::Lost | Spot::Deep => return nothing(),
        }
    }
    nothing()
}
