// "Each push or pop gives the stack as it is afterwards; it holds at most 32."
#![tactic(auto)]

ghost use Rattle.std.specs.Prelude.{◌≡◌, [], drop, get_or};
ghost use Rattle.model_stack.specs.Held.{held, pushed};

// "it holds at most 32"
pub const STACK_MOST: usize = 32;

// Diagram numbers. The top is at len − 1. The project has no heap, so the places are fixed and the length stands beside.
#[derive(Clone, Copy)]
pub struct Stack {
    pub items: [u32; STACK_MOST],
    pub len: usize,
}

impl Stack {
    pub fn new() -> Stack
        ensures { held result ≡ [] }
    {
        Stack {
            items: [0; STACK_MOST],
            len: 0,
        }
    }

    // A full stack stays as it is.
    pub fn push(mut self, x: u32) -> Stack
        ensures { held result ≡ pushed x (held self) }
    {
        if self.len < STACK_MOST {
            self.items[self.len] = x;
            self.len += 1;
        }
        self
    }

    pub fn pop(mut self) -> Stack
        ensures { held result ≡ drop 1 (held self) }
    {
        if 0 < self.len {
            self.len -= 1;
        }
        self
    }

    // The top, 0 where there is none.
    pub fn top(self) -> u32
        ensures { result ≡ get_or (held self) 0 0 }
    {
        if 0 < self.len && self.len <= STACK_MOST {
            self.items[self.len - 1]
        } else {
            0
        }
    }
}
