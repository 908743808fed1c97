// Plain evaluation: the leaf that an action's diagram comes to at a state, found in the model's own bytes.
// A pass over the commands of that diagram; on the stack stands for each diagram the offset of the leaf that it comes to.
#![tactic(auto)]

ghost use Rattle.std.specs.Prelude.{◌≡◌, List, true, ℕ, ◌+◌, ◌≤◌, ◌<◌, length, ℤ, pos};
ghost use Rattle.std.specs.Int.Signed.{le_z};
ghost use Rattle.whole.specs.Linears.{numbers, Smalls};
ghost use Rattle.whole.specs.Numerator.{words};
ghost use Rattle.theory.specs.Form.{new_form};
ghost use Rattle.theory.specs.Command.{whole, give, byte_at, read_at, action_at};
ghost use Rattle.theory.specs.Meaning.{nth};
ghost use Rattle.theory.specs.Value.{bits};
ghost use Rattle.theory.specs.Verdict.{same_slot};
ghost use Rattle.model_command.specs.CursorReadings.{with_linear, linear_of, command_of};
ghost use Rattle.model_stack.specs.Held.{last_first};
ghost use Rattle.plain_pass.specs.Pass.{slot_of, FlatPoint, condition_holds, stepped, codes_end, code_at, pushes, push_width, push_of, index_at, LeafComes};
ghost use Rattle.plain_pass.specs.Pass.{takes as takes-slot};
ghost use Rattle.plain_pass.specs.Pass.{numerator as numerator-at};
ghost use Rattle.plain_pass.specs.Parts.{StackRoom, HoldsStack, Asks};

use model_command::Command;
use model_stack::STACK_MOST;
use plain_parts::size;
use plain_pass::{Point, Slot};
use whole::dot_product::dot;
use whole::{NUMBERS, Numerator, two_words};

mod offsets; // offsets.rt: the stack of a pass
pub mod numerators; // numerators.rt: linears of the bytes at a point

// Bytes of a leaf or a test, with its command's byte.
const WITH_LINEAR: usize = 1 + NUMBERS * 4;

// The stack's length behind a command, and the next command's offset.
#[derive(Clone, Copy)]
struct Turn {
    len: usize,
    next: usize,
}

// Condition k of four.
fn bit(mask: u32, k: u8) -> bool
    ensures { result ≡ nth (bits 4 mask) k }
{
    1 <= k && k <= 4 && value_walk::states::condition(4, mask, u32::from(k))
}

// "1 to n for a condition now, 5 to 4+n for the next step's"
fn condition(k: u8, x: &Point) -> bool
    ensures { result ≡ condition_holds x.now k }
{
    if k <= 4 {
        bit(x.mask, k)
    } else {
        bit(x.setting, k - 4)
    }
}

// A linear at a point, times d.
fn numerator(p: [i64; NUMBERS], x: &Point) -> Numerator
    requires { Smalls p }
    ensures { result ≡ words (numerator-at x.now (linear_of p)) }
{
    dot(p, x.n)
}

// "high is taken when p ≤ 0"
fn test(p: [i64; NUMBERS], x: &Point) -> bool
    requires { Smalls p }
    ensures { result ≡ le_z (numerator-at x.now (linear_of p)) (pos 0) }
{
    two_words::not_positive(numerator(p, x))
}

// What the command at an offset leaves of the stack.
fn after(model: &[u8], at: usize, c: Command, items: &mut [u32], len: usize, x: &Point) -> usize
    requires { StackRoom items.old len × (whole (command_of model.now at c) ≡ read_at model.now at) × (length model.now < 4294967296) }
    ensures { HoldsStack items.new result (stepped x.now at (command_of model.now at c) (last_first items.old len)) }
{
    match c {
        Command::Leaf | Command::Forbidden => offsets::push(items, len, at as u32),
        Command::Condition(k) => offsets::choose(items, len, condition(k, x)),
        Command::Test => offsets::choose(
            items,
            len,
            test(model_command::linear_at(model, at + 1), x),
        ),
        Command::Give { .. } => offsets::pop(items, len),
        Command::Site { .. } | Command::Name(_) | Command::End => len,
    }
}

// Whether a command gives a slot.
fn takes(c: Command, g: Slot) -> bool
    ensures { (B : List ℕ) (i : ℕ) → result ≡ takes-slot (slot_of g) (command_of B i c) }
{
    match c {
        Command::Give {
            command,
            action,
            index,
        } => g
            == Slot {
                command,
                action,
                index,
            },
        _ => false,
    }
}

// Below this offset, bytes for a linear stand behind each byte.
pub fn code_end(model: &[u8]) -> usize
    ensures { result ≡ codes_end model.now }
{
    model.len().saturating_sub(WITH_LINEAR - 1)
}

// The byte at an offset, where bytes for a linear stand behind it; else 0.
pub fn code(model: &[u8], at: usize, end: usize) -> u8
    requires { end ≡ codes_end model.now }
    ensures { result ≡ code_at model.now at }
{
    if at < end { model[at] } else { 0 }
}

#[tactic(auto, unfolding(plain_pass::specs::Pass::pushes))]
fn is_push(op: u8) -> bool
    ensures { result ≡ pushes op }
{
    matches!(op, 0x10..=0x13)
}

// What a push other than a leaf leaves of the stack, told by its byte, and the offset behind it.
fn push_by(model: &[u8], at: usize, items: &mut [u32], len: usize, x: &Point) -> Turn
    requires { StackRoom items.old len × (at + with_linear ≤ length model.now) × (length model.now < 4294967296) × FlatPoint x.now × (byte_at model.now at ≡ 0x10 → ⊥) }
    ensures { HoldsStack items.new result.len (stepped x.now at (command_of model.now at (push_of model.now at (byte_at model.now at))) (last_first items.old len))
        × (result.next ≡ at + push_width (byte_at model.now at)) }
{
    let op = model[at];
    if op == 0x11 {
        let len = offsets::choose(items, len, condition(model[at + 1], x));
        return Turn { len, next: at + 2 };
    }
    if op == 0x13 {
        let len = offsets::push(items, len, at as u32);
        return Turn { len, next: at + 1 };
    }
    let len = offsets::choose(items, len, numerators::test_at(model, at + 1, x));
    Turn {
        len,
        next: at + WITH_LINEAR,
    }
}

// The condition or level that a give of an action has.
#[tactic(auto, unfolding(plain_pass::specs::Pass::index_at))]
fn index_at(model: &[u8], at: usize, op: u8) -> u8
    requires { at + with_linear ≤ length model.now }
    ensures { result ≡ index_at model.now at op }
{
    if op == 0x20 { 0 } else { model[at + 3] }
}

// An action operand.
#[tactic(auto, unfolding(theory::specs::Command::bytes_at))]
fn action_at(model: &[u8], at: usize) -> u16
    requires { at + 2 ≤ length model.now }
    ensures { result ≡ action_at new_form model.now at }
{
    u16::from_le_bytes([model[at], model[at + 1]])
}

// Whether the slot is given at an offset, told by the bytes; some gives are left to the general way.
fn gives(model: &[u8], at: usize, op: u8, g: Slot) -> bool
    requires { op ≡ code_at model.now at }
    ensures { result ≡ true → whole (give (slot_of g)) ≡ read_at model.now at }
{
    if op < 0x20 || 0x22 < op {
        return false;
    }
    let action = action_at(model, at + 1);
    let index = index_at(model, at, op);
    g == Slot {
        command: op,
        action,
        index,
    }
}

// From an offset on, with nothing on the stack there, to the command that gives the slot.
fn pass_from(model: &[u8], begin: usize, g: Slot, x: &Point, items: &mut [u32]) -> usize
    requires { Asks model.now (slot_of g) begin x.now × StackRoom items.old 0 }
    ensures { LeafComes model.now (slot_of g) x.now result }
{
    let mut at = begin;
    let mut len: usize = 0;
    let end = code_end(model);
    loop {
        let op = code(model, at, end);
        if op == 0x10 {
            len = offsets::push(items, len, at as u32);
            at += WITH_LINEAR;
            continue;
        }
        if is_push(op) {
            let t = push_by(model, at, items, len, x);
            len = t.len;
            at = t.next;
            continue;
        }
        if gives(model, at, op, g) {
            return offsets::top(items, len) as usize;
        }
        let Ok(c) = model_command::command_at(model, at) else {
            return 0;
        };
        if takes(c, g) {
            return offsets::top(items, len) as usize;
        }
        if model::is_end(c) {
            return 0;
        }
        len = after(model, at, c, items, len, x);
        at += size(c);
    }
}

// The offset of the leaf that a slot's diagram comes to, in an accepted model; 0 where none is given.
pub fn leaf_at(model: &[u8], begin: usize, g: Slot, x: &Point) -> usize
    requires { Asks model.now (slot_of g) begin x.now }
    ensures { LeafComes model.now (slot_of g) x.now result }
{
    let mut items = [0u32; STACK_MOST];
    pass_from(model, begin, g, x, &mut items)
}
