// The commands of an item's cases, written one after another from a place of a lent buffer.
#![tactic(auto)]

ghost use Rattle.std.specs.Prelude.{◌≤◌, ◌<◌, T, length};
ghost use Rattle.whole.specs.Cases.{if};
ghost use Rattle.theory.specs.Command.{push_condition, push_forbidden};
ghost use Rattle.import_numbers.specs.Numbers.{all_within};
ghost use Rattle.import_write.specs.Writes.{leaf_of, test_of};
ghost use Rattle.import_list.specs.Pending.{Pending};
ghost use Rattle.import_list.specs.Packed.{entries};
ghost use Rattle.import_look.specs.Looks.{command_told};
ghost use Rattle.import_descend.specs.Walks.{SpotComes};
ghost use Rattle.import_emit_cases.specs.Emitting.{Puts, Lent, WritesCommand, Finishes, CasesBegin, Emitting};

use import_descend::{descend, first_value};
use import_going::start::{Spot, decided, go};
use import_list::{Entry, push, top};
use import_look::{Told, leaf, look};
use import_write::{put_condition, put_forbidden, put_leaf, put_test};
use whole::NUMBERS;

// How many bytes a command with a linear has, and one with a condition.
const LINEAR_BYTES: usize = 37;

const CONDITION_BYTES: usize = 2;

// The next command does not fit.
#[derive(Clone, Copy, PartialEq, Eq)]
pub struct Full;

// How many entries are on the list, and the place behind what is written.
#[derive(Clone, Copy)]
pub struct Wrote {
    pub count: usize,
    pub at: usize,
}

// 12 or 10.
fn put_linear(out: &mut [u8], at: usize, a: [i64; NUMBERS], test: bool) -> Result<usize, Full>
    requires { T (all_within a) × (at ≤ length out.old) }
    ensures { Puts out.old at (if test (test_of a) (leaf_of a)) result out.new }
{
    if out.len() - at < LINEAR_BYTES {
        return Err(Full);
    }
    if test {
        return Ok(put_test(out, at, a));
    }
    Ok(put_leaf(out, at, a))
}

// 11.
fn put_asking(out: &mut [u8], at: usize, condition: u8) -> Result<usize, Full>
    requires { at ≤ length out.old }
    ensures { Puts out.old at (push_condition condition) result out.new }
{
    if out.len() - at < CONDITION_BYTES {
        return Err(Full);
    }
    Ok(put_condition(out, at, condition))
}

// 13.
fn put_barring(out: &mut [u8], at: usize) -> Result<usize, Full>
    requires { at ≤ length out.old }
    ensures { Puts out.old at push_forbidden result out.new }
{
    if out.len() <= at {
        return Err(Full);
    }
    Ok(put_forbidden(out, at))
}

fn put_told(out: &mut [u8], at: usize, t: Told) -> Result<usize, Full>
    requires { T (all_within t.linear) × (at ≤ length out.old) }
    ensures { Puts out.old at (command_told t) result out.new }
{
    if t.kind == 0x10 {
        return put_linear(out, at, t.linear, false);
    }
    if t.kind == 0x11 {
        return put_asking(out, at, t.condition);
    }
    if t.kind == 0x12 {
        return put_linear(out, at, t.linear, true);
    }
    put_barring(out, at)
}

// Down to the result that comes first, and its command.
fn write_leaf(
    text: &[u8],
    spot: Spot,
    list: &mut [u64],
    n: usize,
    out: &mut [u8],
    at: usize,
) -> Result<Wrote, Full>
    requires { Lent text.now list.old n out.old at (SpotComes text.now spot list.old n) }
    ensures { WritesCommand text.now list.old out.old at (SpotComes text.now spot list.old n) result list.new out.new }
{
    let d = descend(text, spot, list, n);
    let t = leaf(text, d.at);
    let behind = put_told(out, at, t)?;
    Ok(Wrote {
        count: d.count,
        at: behind,
    })
}

// One command: the latest entry's own, or the first of its second outcome.
fn step(text: &[u8], list: &mut [u64], n: usize, out: &mut [u8], at: usize) -> Result<Wrote, Full>
    requires { (0 < n) × Lent text.now list.old n out.old at (Pending text.now (entries list.old n)) }
    ensures { WritesCommand text.now list.old out.old at (Pending text.now (entries list.old n)) result list.new out.new }
{
    let e = top(list, n);
    let t = look(text, e.at);
    if e.both {
        let behind = put_told(out, at, t)?;
        return Ok(Wrote {
            count: n - 1,
            at: behind,
        });
    }
    push(list, n - 1, Entry { both: true, ..e });
    let v = first_value(t.first, e.sign);
    let s = decided(text, e.at, !v, e.mask, e.count);
    write_leaf(text, s, list, n, out, at)
}

// The commands that so many entries of the list stand for.
fn finish(
    text: &[u8],
    list: &mut [u64],
    count: usize,
    out: &mut [u8],
    at: usize,
) -> Result<usize, Full>
    requires { Lent text.now list.old count out.old at (Pending text.now (entries list.old count)) }
    ensures { Finishes out.old at (Pending text.now (entries list.old count)) result out.new }
{
    let mut n = count;
    let mut i = at;
    // No `for`: a step takes an entry off the list or puts more on it.
    while n > 0 {
        let w = step(text, list, n, out, i)?;
        n = w.count;
        i = w.at;
    }
    Ok(i)
}

// The commands of the cases that begin at a place; the list has import_descend::ENTRIES words.
pub fn emit_cases(
    text: &[u8],
    from: usize,
    list: &mut [u64],
    out: &mut [u8],
    at: usize,
) -> Result<usize, Full>
    requires { CasesBegin text.now from list.old out.old at }
    ensures { Emitting text.now from out.old at result out.new }
{
    let s = go(text, from, 0, 0);
    let w = write_leaf(text, s, list, 0, out, at)?;
    finish(text, list, w.count, out, w.at)
}
