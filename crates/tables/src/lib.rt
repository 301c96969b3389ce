// Numbers and bytes in rows, and tables of eight rows of eight: reads and writes that no index can break.
#![tactic(auto)]

ghost use Rattle.std.specs.Prelude.{◌≡◌, ◌+◌, ◌-◌, min, get_or, take, drop, set};
ghost use Rattle.std.proofs.lemmas.List.Edits.{sets};
ghost use Rattle.rules.specs.Maps.{at, least, every};
ghost use Rattle.tables.specs.Rows.{row_of, none_zero, below_but, with_column, column_of, raised};

// The number after x, where one fits.
pub fn next(x: u32) -> u32
    ensures { result ≡ min (x + 1) 4294967295 }
{
    x.saturating_add(1)
}

// The number before x, and 0 before 0.
pub fn before(x: u8) -> u8
    ensures { result ≡ x - 1 }
{
    x.saturating_sub(1)
}

// Entry i of a list, and `none` past its end.
pub fn get_or<T: Copy + Drop>(a: &[T], i: usize, none: T) -> T
    ensures { result ≡ get_or a.now i none }
{
    a.get(i).copied().unwrap_or(none)
}

// The k-th number of a list, the first being 1; 0 where there is none.
pub fn at(a: &[u32], k: u8) -> u32
    ensures { result ≡ at a.now k }
{
    if k == 0 {
        return 0;
    }
    get_or(a, (k - 1) as usize, 0)
}

// The first entries, at most so many.
pub fn front<T>(a: &[T], most: usize) -> &[T]
    ensures { result.now ≡ take most a.now }
{
    &a[..most.min(a.len())]
}

// Writes a list from a place on, and nothing past the end.
#[tactic(auto, using(crate::proofs::PutLaws::put_past, crate::proofs::PutLaws::put_fitting))]
pub fn put<T: Copy>(d: &mut [T], at: usize, xs: &[T])
    ensures { d.new ≡ sets d.old at xs.now }
{
    if d.len() <= at {
        return;
    }
    let fitting = front(xs, d.len() - at);
    d[at..at + fitting.len()].copy_from_slice(fitting);
}

// The list from index i on.
pub fn tail<T>(a: &[T], i: usize) -> &[T]
    ensures { result.now ≡ drop i a.now }
{
    &a[i.min(a.len())..]
}

// Row k of a table, the first being 1: the table from there on.
pub fn row(t: &[u32], k: u8) -> &[u32]
    ensures { result.now ≡ row_of t.now k }
{
    let i = 8 * (before(k) as usize);
    tail(t, i)
}

// The eight numbers, with v as the j-th. Kept: an `if`, since past the eighth all stay as they were (its contract).
pub fn with(a: [u32; 8], j: u8, v: u32) -> [u32; 8]
    ensures { result ≡ set a (j - 1) v }
{
    let i = before(j) as usize;
    let mut b = a;
    if i < 8 {
        b[i] = v;
    }
    b
}

// The least of the first n numbers.
pub fn least_of(a: &[u32], n: u8) -> u32
    ensures { result ≡ least n (at a.now) }
{
    let mut m = get_or(a, 0, 0);
    for k in 1..n {
        m = m.min(get_or(a, k as usize, 0));
    }
    m
}

// None of the first n numbers is 0.
#[tactic(auto, unfolding(crate::specs::Rows::none_zero))]
pub fn none_zero(a: &[u32], n: u8) -> bool
    ensures { result ≡ none_zero n (at a.now) }
{
    for k in 0..n {
        if get_or(a, k as usize, 0) == 0 {
            return false;
        }
    }
    true
}

// None of the first n numbers of the first n rows is 0.
pub fn table_none_zero(t: &[u32], n: u8) -> bool
    ensures { result ≡ every 1 n (λ k. none_zero n (at (row_of t.now k))) }
{
    for k in 0..n {
        if !none_zero(row(t, k + 1), n) {
            return false;
        }
    }
    true
}

// Each of the first n numbers but the j-th is at most that of the limits.
#[tactic(auto, unfolding(crate::specs::Rows::below_but))]
pub fn below_but<'a>(a: &'a [u32], limits: &'a [u32], n: u8, j: u8) -> bool
    ensures { result ≡ below_but n j (at a.now) (at limits.now) }
{
    for k in 0..n {
        if k + 1 != j && at(limits, k + 1) < at(a, k + 1) {
            return false;
        }
    }
    true
}

// The table with the first eight of v as column j.
#[tactic(auto, unfolding(crate::specs::Rows::with_column))]
pub fn with_column(t: [u32; 64], j: u8, v: &[u32]) -> [u32; 64]
    ensures { result ≡ with_column t j v.now }
{
    let mut b = t;
    let c = j as usize;
    for q in 0..64 {
        if q % 8 + 1 == c {
            b[q] = get_or(v, q / 8, 0);
        }
    }
    b
}

// Column j of the table.
#[tactic(auto, unfolding(crate::specs::Rows::column_of))]
pub fn column_of(t: &[u32], j: u8) -> [u32; 8]
    ensures { result ≡ column_of t.now j }
{
    let mut a = [0u32; 8];
    for k in 0..8 {
        a[k] = at(tail(t, 8 * k), j);
    }
    a
}

// Each of the first n numbers of a, raised to at least that of b. Kept: indexed, since three arrays go side by side, and the
// entries from n on stay.
#[tactic(auto, unfolding(crate::specs::Rows::raised))]
pub fn raised_to(a: [u32; 8], b: [u32; 8], n: u8) -> [u32; 8]
    ensures { result ≡ raised n a b }
{
    let mut c = a;
    for k in 0..8 {
        if k < n as usize {
            c[k] = a[k].max(b[k]);
        }
    }
    c
}
