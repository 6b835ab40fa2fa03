// Whether the slots' codes are a tree's. The recursion over halves looks at them alone, so that no level copies the state.
ghost use Rattle.std.specs.Prelude.{◌≡◌, ◌+◌, ◌-◌, ◌^◌, ◌≤◌, eqb};
ghost use Rattle.std.specs.List.{list_all};
ghost use Rattle.shape.specs.Codes.{stands, clear, tiled, tree};

// 2 ^ h, the places of a task. This crate alone calls it, with an h up to the rank.
pub fn power(h: usize) -> u64
    requires { h ≤ 6 }
    ensures { result ≡ 2 ^ h }
{
    1 << h
}

// Whether a code is that of a task of 2 ^ h places.
fn stands_at(c: usize, h: usize) -> bool
    requires { h ≤ 6 }
    ensures { result ≡ stands c h }
{
    c == h + 1 || c == h + 9
}

// Whether slots with these codes are vacant.
fn all_vacant(codes: &[u8]) -> bool
    ensures { result ≡ list_all (λ c. eqb c 0) codes.now }
{
    codes.iter().all(|code| *code == 0)
}

// Whether the slots from..to are vacant.
fn is_clear(codes: &[u8; 64], from: usize, to: usize) -> bool
    requires { (from ≤ to) × (to ≤ 64) }
    ensures { result ≡ clear codes.now (to - from) from }
{
    all_vacant(&codes[from..to])
}

// Whether the 2 ^ h slots from base on are one task's, or two halves of which not both have ended.
fn is_tiled(codes: &[u8; 64], h: usize, base: usize) -> bool
    requires { (h ≤ 6) × (base + 2 ^ h ≤ 64) }
    ensures { result ≡ tiled codes.now h base }
{
    let c = usize::from(codes[base]);
    if stands_at(c, h) {
        return is_clear(codes, base + 1, base + power(h) as usize);
    }
    if h == 0 {
        return false;
    }
    let upper = base + power(h - 1) as usize;
    if !is_tiled(codes, h - 1, base) {
        return false;
    }
    if !is_tiled(codes, h - 1, upper) {
        return false;
    }
    if c != h + 8 {
        return true;
    }
    usize::from(codes[upper]) != h + 8
}

// Whether the slots are those of a job of 2 ^ rank places: its tasks tile them, and all others are vacant. `machine` alone calls it, with a
// rank that it has found to be at most 6.
pub fn is_tree(codes: &[u8; 64], rank: usize) -> bool
    requires { rank ≤ 6 }
    ensures { result ≡ tree codes.now rank }
{
    if !is_tiled(codes, rank, 0) {
        return false;
    }
    is_clear(codes, power(rank) as usize, 64)
}
