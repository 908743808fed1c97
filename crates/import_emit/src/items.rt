// One item: the commands of its cases and what they are given as, or its name.
ghost use Rattle.std.specs.Prelude.{◌≡◌, ℕ, ◌≤◌, length};
ghost use Rattle.theory.specs.Command.{give};
ghost use Rattle.import_model.specs.Encode.{command_bytes};
ghost use Rattle.import_write.specs.Writes.{given_of};
ghost use Rattle.import_walk.specs.Answers.{slot_said};
ghost use Rattle.import_emit.specs.Items.{CommandPut, Opened, NameSpelt, NamePut, ItemAt, ItemPut, PartAt, PartPut};

use import_emit_cases::{Full, emit_cases};
use import_walk::name::{end_of_name, name_byte};
use import_walk::opening::{END, NAME, Opening, REWARD, opening_at};
use import_walk::steps::end_of_item;
use import_write::{put_given, put_name};
use model_command::NAME_BYTES;

// A name's command: its byte, its action, its bytes.
const NAMED: usize = 3 + NAME_BYTES;

// Where the next item comes, and what is written.
#[derive(Clone, Copy)]
pub struct Passed {
    pub next: usize,
    pub wrote: Result<usize, Full>,
}

fn slot_len(kind: u8) -> usize
    ensures { (a k : ℕ) → result ≡ length (command_bytes (given_of kind a k)) }
{
    if kind == REWARD {
        return 3;
    }
    if kind == END {
        return 1;
    }
    4
}

fn put_slot(out: &mut [u8], at: usize, o: Opening) -> Result<usize, Full>
    requires { Opened o out.old at }
    ensures { CommandPut out.old at (give (slot_said o)) result out.new }
{
    if out.len() - at < slot_len(o.kind) {
        return Err(Full);
    }
    Ok(put_given(out, at, o.kind, o.action as u16, o.index))
}

fn put_item(
    text: &[u8],
    o: Opening,
    list: &mut [u64],
    out: &mut [u8],
    at: usize,
) -> Result<usize, Full>
    requires { ItemAt text.now o list.old out.old at }
    ensures { ItemPut text.now o out.old at result out.new }
{
    let behind = emit_cases(text, o.next, list, out, at)?;
    put_slot(out, behind, o)
}

fn spell(text: &[u8], from: usize) -> [u8; NAME_BYTES]
    requires { from ≤ length text.now }
    ensures { NameSpelt text.now from result }
{
    let mut name = [0u8; NAME_BYTES];
    for j in 0..NAME_BYTES {
        name[j] = name_byte(text, from, j);
    }
    name
}

fn put_named(text: &[u8], o: Opening, out: &mut [u8], at: usize) -> Result<usize, Full>
    requires { Opened o out.old at × (o.next ≤ length text.now) }
    ensures { NamePut text.now o out.old at result out.new }
{
    if out.len() - at < NAMED {
        return Err(Full);
    }
    let name = spell(text, o.next);
    Ok(put_name(out, at, o.action as u16, &name))
}

pub fn put_part(text: &[u8], from: usize, list: &mut [u64], out: &mut [u8], at: usize) -> Passed
    requires { PartAt text.now from list.old out.old at }
    ensures { PartPut text.now from out.old at result out.new }
{
    let o = opening_at(text, from);
    if o.kind == NAME {
        let wrote = put_named(text, o, out, at);
        let next = end_of_name(text, o.next);
        return Passed { next, wrote };
    }
    let wrote = put_item(text, o, list, out, at);
    let next = end_of_item(text, o.next);
    Passed { next, wrote }
}
