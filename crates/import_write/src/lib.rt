// One command's bytes, written from a place of a lent buffer; the answer is the place behind them.
#![tactic(auto)]

ghost use Rattle.std.specs.Prelude.{[], ◌∷◌, ◌++◌, ◌+◌, ◌≤◌, T, length};
ghost use Rattle.theory.specs.Command.{site, push_condition, push_forbidden, name_action, end_model};
ghost use Rattle.model_command.specs.CursorReadings.{linear_of};
ghost use Rattle.text_decimal.specs.Put.{PutAt};
ghost use Rattle.import_numbers.specs.Numbers.{all_within};
ghost use Rattle.import_model.specs.Encode.{linear_bytes, action_encoded, command_bytes};
ghost use Rattle.import_write.specs.Writes.{CommandRoom, leaf_of, test_of, given_of};

use import_words::{put_action, put_words};
use text_decimal::put_bytes;
use whole::NUMBERS;

fn put_byte(out: &mut [u8], at: usize, byte: u8) -> usize
    requires { at + 1 ≤ length out.old }
    ensures { PutAt out.old at (byte ∷ []) result out.new }
{
    out[at] = byte;
    at + 1
}

// A command's byte and an operand of one byte.
fn put_two(out: &mut [u8], at: usize, code: u8, operand: u8) -> usize
    requires { at + 2 ≤ length out.old }
    ensures { PutAt out.old at (code ∷ operand ∷ []) result out.new }
{
    let n = put_byte(out, at, code);
    put_byte(out, n, operand)
}

// A command's byte and its action.
fn put_acting(out: &mut [u8], at: usize, code: u8, action: u16) -> usize
    requires { at + 3 ≤ length out.old }
    ensures { PutAt out.old at (code ∷ action_encoded action) result out.new }
{
    let n = put_byte(out, at, code);
    put_action(out, n, action)
}

// A command's byte and its linear, nine numbers.
fn put_linear(out: &mut [u8], at: usize, code: u8, a: [i64; NUMBERS]) -> usize
    requires { T (all_within a) × (at + 37 ≤ length out.old) }
    ensures { PutAt out.old at (code ∷ linear_bytes (linear_of a)) result out.new }
{
    let n = put_byte(out, at, code);
    put_words(out, n, a)
}

// An action and an operand of one byte behind it.
fn put_behind(out: &mut [u8], at: usize, action: u16, operand: u8) -> usize
    requires { at + 3 ≤ length out.old }
    ensures { PutAt out.old at (action_encoded action ++ (operand ∷ [])) result out.new }
{
    let n = put_action(out, at, action);
    put_byte(out, n, operand)
}

pub fn put_site(
    out: &mut [u8],
    at: usize,
    levels: u8,
    conditions: u8,
    actions: u16,
    weights: u8,
) -> usize
    requires { CommandRoom out.old at (site levels conditions actions weights) }
    ensures { PutAt out.old at (command_bytes (site levels conditions actions weights)) result out.new }
{
    let n = put_two(out, at, 0x02, levels);
    let k = put_byte(out, n, conditions);
    put_behind(out, k, actions, weights)
}

pub fn put_leaf(out: &mut [u8], at: usize, a: [i64; NUMBERS]) -> usize
    requires { T (all_within a) × CommandRoom out.old at (leaf_of a) }
    ensures { PutAt out.old at (command_bytes (leaf_of a)) result out.new }
{
    put_linear(out, at, 0x10, a)
}

pub fn put_test(out: &mut [u8], at: usize, a: [i64; NUMBERS]) -> usize
    requires { T (all_within a) × CommandRoom out.old at (test_of a) }
    ensures { PutAt out.old at (command_bytes (test_of a)) result out.new }
{
    put_linear(out, at, 0x12, a)
}

pub fn put_condition(out: &mut [u8], at: usize, condition: u8) -> usize
    requires { CommandRoom out.old at (push_condition condition) }
    ensures { PutAt out.old at (command_bytes (push_condition condition)) result out.new }
{
    put_two(out, at, 0x11, condition)
}

pub fn put_forbidden(out: &mut [u8], at: usize) -> usize
    requires { CommandRoom out.old at push_forbidden }
    ensures { PutAt out.old at (command_bytes push_forbidden) result out.new }
{
    put_byte(out, at, 0x13)
}

// What a diagram is given as: 20 to 23, the action, the condition or level.
pub fn put_given(out: &mut [u8], at: usize, command: u8, action: u16, index: u8) -> usize
    requires { CommandRoom out.old at (given_of command action index) }
    ensures { PutAt out.old at (command_bytes (given_of command action index)) result out.new }
{
    if command == 0x20 {
        return put_acting(out, at, 0x20, action);
    }
    if command == 0x23 {
        return put_byte(out, at, 0x23);
    }
    let n = put_byte(out, at, command);
    put_behind(out, n, action, index)
}

pub fn put_name(out: &mut [u8], at: usize, action: u16, name: &[u8]) -> usize
    requires { CommandRoom out.old at (name_action action name.now) }
    ensures { PutAt out.old at (command_bytes (name_action action name.now)) result out.new }
{
    let n = put_acting(out, at, 0x30, action);
    put_bytes(out, n, name)
}

pub fn put_end(out: &mut [u8], at: usize) -> usize
    requires { CommandRoom out.old at end_model }
    ensures { PutAt out.old at (command_bytes end_model) result out.new }
{
    put_byte(out, at, 0xff)
}
