// Partitions by labels.
ghost use Rattle.std.specs.Prelude.{◌≡◌, ℕ, ◌<◌, ◌==◌, length, if◌then◌else◌};
ghost use Rattle.pf_model.specs.Digraph.{IsDigraph};
ghost use Rattle.pf_graph.specs.Labels.{label};
ghost use Rattle.pf_trees.specs.Trees.{with_ends};
ghost use Rattle.pf_trees.specs.State.{IsJoined};

// Each vertex has a label of its own.
pub(crate) fn apart(n: u32, labels: &mut [u32])
    requires { length labels.old ≡ n }
    ensures { (v : ℕ) → v < n → label labels.new v ≡ v }
{
    'vertices: for v in 0..n {
        labels[v as usize] = v;
    }
}

// The label `p` becomes `q`.
fn rename(labels: &mut [u32], p: u32, q: u32)
    ensures { (v : ℕ) → v < length labels.old → label labels.new v ≡ (if label labels.old v == p then q else label labels.old v) }
{
    'labels: for v in 0..labels.len() {
        let l = labels[v];
        labels[v] = if l == p { q } else { l };
    }
}

// The partition that joins the ends of the marked edges and no more.
pub(crate) fn join_marked(n: u32, ends: &[(u32, u32)], mark: &[bool], labels: &mut [u32])
    requires graph { IsDigraph (with_ends n ends.now) }
    requires mark { length mark.now ≡ length ends.now }
    requires full { length labels.old ≡ n }
    ensures { IsJoined n ends.now mark.now (length ends.now) labels.new }
{
    apart(n, labels);
    'edges: for x in 0..ends.len() {
        if mark[x] {
            let edge = ends[x];
            let p = labels[edge.0 as usize];
            let q = labels[edge.1 as usize];
            rename(labels, p, q);
        }
    }
}
