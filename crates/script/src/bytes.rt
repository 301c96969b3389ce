// Looking for a byte.
ghost use Rattle.script.specs.Lines.{Found};

// The place of the first c.
pub fn find(s: &[u8], c: u8) -> Option<usize>
    ensures { Found s.now c result }
{
    s.iter().position(|b| *b == c)
}
