// The stack of a pass, in lent words: what is held are the first len of them, the top last.
ghost use Rattle.std.specs.Prelude.{◌≡◌, get_or, drop};
ghost use Rattle.model_stack.specs.Held.{last_first, pushed};
ghost use Rattle.plain_pass.specs.Pass.{chosen};
ghost use Rattle.plain_pass.specs.Parts.{StackRoom, HoldsStack};

use model_stack::STACK_MOST;

// A full stack stays as it is.
pub fn push(items: &mut [u32], len: usize, at: u32) -> usize
    requires { StackRoom items.old len }
    ensures { HoldsStack items.new result (pushed at (last_first items.old len)) }
{
    if len < STACK_MOST {
        items[len] = at;
        return len + 1;
    }
    len
}

pub fn pop(items: &[u32], len: usize) -> usize
    requires { StackRoom items.now len }
    ensures { HoldsStack items.now result (drop 1 (last_first items.now len)) }
{
    len.saturating_sub(1)
}

// "takes low, then high, off the stack" and pushes the one that is taken.
pub fn choose(items: &mut [u32], len: usize, high: bool) -> usize
    requires { StackRoom items.old len }
    ensures { HoldsStack items.new result (chosen high (last_first items.old len)) }
{
    if len < 2 {
        return len;
    }
    if !high {
        items[len - 2] = items[len - 1];
    }
    len - 1
}

// The top, 0 where there is none.
pub fn top(items: &[u32], len: usize) -> u32
    requires { StackRoom items.now len }
    ensures { result ≡ get_or (last_first items.now len) 0 0 }
{
    if len == 0 {
        return 0;
    }
    items[len - 1]
}
