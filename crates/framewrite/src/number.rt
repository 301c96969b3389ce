// Numbers written to a slice of bytes, high byte first.
ghost use Rattle.std.specs.Prelude.{◌≡◌, ◌+◌, ◌*◌, ◌^◌, ◌≤◌, ◌<◌, length};
ghost use Rattle.std.proofs.lemmas.List.Edits.{sets};
ghost use Rattle.rules.specs.Bytes.{bytes, all_bytes};
ghost use Rattle.rules.specs.Lawful.{Each};

// Kept: d and at as two parameters, here and in field.rt: a struct of both would hold a lent `&mut`, to be lent on at each
// call. Kept: w as a number up to 4, since it is the table's width.

// Writes a number of w bytes at a place.
pub fn put_number(d: &mut [u8], at: usize, w: usize, x: u32)
    requires { (w ≤ 4) × (x < 256 ^ w) × (at + w ≤ length d.old) }
    ensures { d.new ≡ sets d.old at (bytes w x) }
{
    let all = x.to_be_bytes();
    d[at..at + w].copy_from_slice(&all[4 - w..]);
}

// Writes numbers of w bytes each from a place on.
pub fn put_numbers(d: &mut [u8], at: usize, w: usize, xs: &[u32])
    requires { (w ≤ 4) × (Each (λ x. x < 256 ^ w) xs.now) × (at + w * length xs.now ≤ length d.old) }
    ensures { d.new ≡ sets d.old at (all_bytes w xs.now) }
{
    let mut to = at;
    for x in xs {
        put_number(d, to, w, *x);
        to += w;
    }
}
