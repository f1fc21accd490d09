// Newton's iteration from single vertices down to the least ratio (Cunningham 1985).
ghost use Rattle.std.specs.Prelude.{◌≡◌, ◌≤◌, length};
ghost use Rattle.pf_graph.specs.Labels.{parts, IsPartition};
ghost use Rattle.pf_graph.specs.Best.{partition_value};
ghost use Rattle.pf_strength.specs.Newton.{HasRatio, IsLast};

use pf_forest::Forest;
use pf_graph::{Graph, Partition};
use pf_rat::{Line, Rat};

// The ratio of the crossing weight of a partition to the number of its parts less one.
fn ratio(graph: &Graph, partition: &Partition) -> Rat
    requires full { length partition.now ≡ graph.now.nodes }
    requires two { 2 ≤ parts partition.now }
    ensures { HasRatio graph.now result partition.now }
{
    // Gives the proof the limits.
    let _ = graph.frame();
    let crossing = graph.crossing(partition);
    let parts = partition.parts();
    Rat::new(crossing, i128::from(parts) - 1)
}

// The value of a partition at a level `p/q`: `q crossing - p (parts - 1)`.
pub(crate) fn partition_value(graph: &Graph, partition: &Partition, level: &Rat) -> i128
    requires { length partition.now ≡ graph.now.nodes }
    ensures { result ≡ partition_value graph.now partition.now level.now }
{
    // Gives the proof the limits.
    let _ = graph.frame();
    let crossing = graph.crossing(partition);
    let parts = partition.parts();
    Line::new(crossing, 1 - i128::from(parts)).at(level)
}

// Makes `best` a partition of the least ratio, which is the result, and fills the forest there. `best` begins with single
// vertices; each further one has fewer parts and a smaller ratio, and is best at the ratio before.
pub(crate) fn find<'g>(graph: &Graph, forest: &mut Forest<'g>, best: &mut Partition) -> Rat
    requires graph { forest.old.graph ≡ graph.now }
    requires partition { IsPartition graph.now.nodes best.old }
    requires single { parts best.old ≡ graph.now.nodes }
    requires two { 2 ≤ graph.now.nodes }
    ensures { IsLast graph.now result best.new forest.new }
{
    // Gives the proof the limits.
    let _ = graph.frame();
    let mut level = ratio(graph, best);
    forest.fill(&level);
    let mut found = partition_value(graph, forest.partition(), &level);
    'steps: while found < 0 {
        best.regroup(forest.partition().labels());
        level = ratio(graph, best);
        forest.fill(&level);
        found = partition_value(graph, forest.partition(), &level);
    }
    level
}
