// The model that a text becomes, written to the start of a lent buffer: the site, the items one behind another, the end.
#![tactic(auto)]

ghost use Rattle.std.specs.Prelude.{◌≡◌, ◌≤◌, length};
ghost use Rattle.theory.specs.Command.{end_model};
ghost use Rattle.import_list.specs.Packed.{list_most};
ghost use Rattle.import_emit.specs.Items.{CommandPut, PartsAt, PartsPut, ReadingWithin, SitePut, ModelPut};

use import_descend::ENTRIES;
use import_emit_cases::Full;
use import_walk::site::header_at;
use import_write::{put_end, put_site};
use items::{Passed, put_part};

pub mod items;

// The bytes of a site.
const SITE: usize = 6;

fn write_site(text: &[u8], out: &mut [u8]) -> Passed
    ensures { SitePut text.now out.old result out.new }
{
    let s = header_at(text, 0);
    if out.len() < SITE {
        return Passed {
            next: s.next,
            wrote: Err(Full),
        };
    }
    let behind = put_site(
        out,
        0,
        s.levels as u8,
        s.conditions as u8,
        s.actions as u16,
        s.weights as u8,
    );
    Passed {
        next: s.next,
        wrote: Ok(behind),
    }
}

fn write_end(out: &mut [u8], at: usize) -> Result<usize, Full>
    requires { at ≤ length out.old }
    ensures { CommandPut out.old at end_model result out.new }
{
    if at == out.len() {
        return Err(Full);
    }
    Ok(put_end(out, at))
}

// The items from an offset on, and the end.
fn write_parts(
    text: &[u8],
    from: usize,
    list: &mut [u64],
    out: &mut [u8],
    start: usize,
) -> Result<usize, Full>
    requires { PartsAt text.now from list.old out.old start }
    ensures { PartsPut text.now from out.old start result out.new }
{
    let mut i = from;
    let mut at = start;
    // No `for`: the place leaps to where the next item begins.
    while i < text.len() {
        let p = put_part(text, i, list, out, at);
        at = p.wrote?;
        i = p.next;
    }
    write_end(out, at)
}

fn write_text(text: &[u8], list: &mut [u64], out: &mut [u8]) -> Result<usize, Full>
    requires { ReadingWithin text.now × (length list.old ≡ list_most) }
    ensures { ModelPut text.now out.old result out.new }
{
    let s = write_site(text, out);
    let at = s.wrote?;
    write_parts(text, s.next, list, out, at)
}

// The model at the start of the scratch bytes, and its length; or that it is longer than they are.
pub fn emit(text: &[u8], scratch: &mut [u8]) -> Result<usize, Full>
    requires { ReadingWithin text.now }
    ensures { ModelPut text.now scratch.old result scratch.new }
{
    let mut list = [0u64; ENTRIES];
    write_text(text, &mut list, scratch)
}
