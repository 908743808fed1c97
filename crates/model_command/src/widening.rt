// Operands as indices, each with its bound: `usize::from` says the value only, and callers that read an operand from a struct know no bound of it.
ghost use Rattle.std.specs.Prelude.{◌≡◌, ◌<◌};

// A byte as an index.
pub fn byte_index(x: u8) -> usize
    ensures { (result ≡ x) × (result < 256) }
{
    usize::from(x)
}

// An action's number as an index.
pub fn action_index(x: u16) -> usize
    ensures { (result ≡ x) × (result < 65536) }
{
    usize::from(x)
}
