// The work list of the emitter: atoms of the text whose commands are not all written yet, one word each.
#![tactic(auto)]

ghost use Rattle.std.specs.Prelude.{◌≡◌, ◌∷◌, ◌-◌, ◌≤◌, ◌<◌, length};
ghost use Rattle.import_list.specs.Packed.{packed, unpacked, FitsWord, entries, Pushed};

// An atom: its place, whether "!" turns it and each bracket around it (innermost in the lowest bit), and whether the
// commands of both its outcomes are written, or those of the first alone.
#[derive(Clone, Copy)]
pub struct Entry {
    pub at: usize,
    pub sign: bool,
    pub mask: u64,
    pub count: u32,
    pub both: bool,
}

// From the highest bits: place, count, mask, sign, both.
fn pack(e: Entry) -> u64
    requires { FitsWord e }
    ensures { result ≡ packed e }
{
    let place = e.at as u64;
    let (sign, both) = (u64::from(e.sign), u64::from(e.both));
    (((place * 64 + u64::from(e.count)) * 4294967296 + e.mask) * 2 + sign) * 2 + both
}

fn unpack(x: u64) -> Entry
    ensures { result ≡ unpacked x }
{
    let place = x / 1099511627776;
    let count = x / 17179869184 % 64;
    Entry {
        at: place as usize,
        sign: x / 2 % 2 == 1,
        mask: x / 4 % 4294967296,
        count: count as u32,
        both: x % 2 == 1,
    }
}

// An entry on top of the first `count` ones.
pub fn push(list: &mut [u64], count: usize, e: Entry)
    requires { (count < length list.old) × FitsWord e }
    ensures { Pushed list.old count e list.new }
{
    list[count] = pack(e);
}

// The latest of so many entries.
pub fn top(list: &[u64], count: usize) -> Entry
    requires { (0 < count) × (count ≤ length list.now) }
    ensures { entries list.now count ≡ result ∷ entries list.now (count - 1) }
{
    unpack(list[count - 1])
}
