// Behind the first of a byte.
ghost use Rattle.std.specs.Prelude.{◌≤◌, length};
ghost use Rattle.import_going.specs.Going.{Behind};

pub fn behind(text: &[u8], from: usize, k: u8) -> Option<usize>
    requires { from ≤ length text.now }
    ensures { Behind k text.now from result }
{
    for i in from..text.len() {
        if text[i] == k {
            return Some(i + 1);
        }
    }
    None
}
