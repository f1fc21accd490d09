// The table of cuts: row t holds the cut of slot t, one truth value per vertex.
ghost use Rattle.std.specs.Prelude.{◌≡◌, ◌≢◌, ℕ, ◌+◌, ◌*◌, ◌<◌, ◌≤◌, ◌==◌, ◌&&◌, length, slice_index_or, false};
ghost use Rattle.pf_trees.specs.Sides.{differ, separates, cut_at, exchanged, first_cut, IsReduced};

// Whether the edge crosses the cut of slot `t`.
pub(crate) fn separates(cuts: &[bool], n: usize, t: usize, edge: (u32, u32)) -> bool
    requires row { t * n + n ≤ length cuts.now }
    requires first { edge.0 < n }
    requires second { edge.1 < n }
    ensures { result ≡ separates (cut_at cuts.now n t) edge }
{
    let start = t * n;
    cuts[start + edge.0 as usize] != cuts[start + edge.1 as usize]
}

// Adds the cut of slot `t` to that of slot `s`.
pub(crate) fn add_row(cuts: &mut [bool], n: usize, s: usize, t: usize)
    requires row { s * n + n ≤ length cuts.old }
    requires other { t * n + n ≤ length cuts.old }
    requires apart { s ≢ t }
    ensures { (r v : ℕ) → v < n → cut_at cuts.new n r v ≡ differ (cut_at cuts.old n r v) (cut_at cuts.old n t v && (r == s)) }
{
    let into = s * n;
    let start = t * n;
    'row: for v in 0..n {
        cuts[into + v] = cuts[into + v] != cuts[start + v];
    }
}

// Adds the cut of slot `t` to that of slot `s`, if the edge crosses this and it is another slot.
fn reduce(cuts: &mut [bool], n: usize, s: usize, t: usize, edge: (u32, u32))
    requires row { s * n + n ≤ length cuts.old }
    requires other { t * n + n ≤ length cuts.old }
    requires first { edge.0 < n }
    requires second { edge.1 < n }
    ensures { IsReduced cuts.old n s t edge cuts.new }
{
    if s == t {
        return;
    }
    if !separates(cuts, n, s, edge) {
        return;
    }
    add_row(cuts, n, s, t);
}

// The edge takes slot `t`: its cut is added to the cuts of the other slots from `lo` to below `hi` that the edge crosses.
pub(crate) fn exchange(
    cuts: &mut [bool],
    n: usize,
    lo: usize,
    hi: usize,
    t: usize,
    edge: (u32, u32),
)
    requires row { t * n + n ≤ length cuts.old }
    requires rows { hi * n ≤ length cuts.old }
    requires order { lo ≤ hi }
    requires first { edge.0 < n }
    requires second { edge.1 < n }
    ensures { (r v : ℕ) → v < n → cut_at cuts.new n r v ≡ exchanged cuts.old n lo hi t edge r v }
{
    'slots: for s in lo..hi {
        reduce(cuts, n, s, t, edge);
    }
}

// At first the cut of the slot i of a tree holds vertex i + 1 alone.
pub(crate) fn begin(n: usize, width: usize, total: usize, cuts: &mut [bool])
    requires width { n ≡ width + 1 }
    requires some { 0 < width }
    requires rows { total * n ≤ length cuts.old }
    requires none { (i : ℕ) → slice_index_or cuts.old i false ≡ false }
    ensures { (r v : ℕ) → r < total → v < n → cut_at cuts.new n r v ≡ first_cut width r v }
{
    'slots: for t in 0..total {
        let v = t % width + 1;
        let start = t * n;
        cuts[start + v] = true;
    }
}
