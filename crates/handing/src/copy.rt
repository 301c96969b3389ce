// Bytes copied to the front of a lent output.
ghost use Rattle.std.specs.Prelude.{◌≡◌, ◌+◌, ◌≤◌, length};
ghost use Rattle.rules.specs.Calls.{written};
ghost use Rattle.tables.specs.Rows.{part};

use tables;

// Kept: byte by byte, since past the end of the list 0 is written (its contract).
// Copies the count bytes of the list from index start on; past the end of the list they are 0.
pub fn put_part(out: &mut [u8], list: &[u8], start: usize, count: usize)
    requires { (count ≤ length out.old) × (start + count ≤ 18446744073709551615) }
    ensures { out.new ≡ written out.old (part list.now start count) }
{
    for i in 0..count {
        out[i] = tables::get_or(list, start + i, 0);
    }
}
