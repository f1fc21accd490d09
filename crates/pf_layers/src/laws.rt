//! What holds of layers, each law as the contract of a function that does nothing.

ghost use Rattle.pf_layers.specs.Worked.{EdgesNumbers, EdgesForgotten, BareLayers, ItemNumbers};
ghost use Rattle.std.specs.Prelude.{List};
ghost use Rattle.pf_text.specs.Lines.{Line};
ghost use Rattle.pf_layers.specs.Laws.{OneDenseLayers, OneRatioLayers, OneDenseLevels, OneRatioLevels, LayersFromText, DenseHasShape, RatioHasShape, IsReadByHeader};

/// At most one list of layers is right, over a graph and over items. Its levels are the same fractions where they are in lowest terms.
pub fn layers_are_unique()
    ensures dense { OneDenseLayers }
    ensures ratio { OneRatioLayers }
    ensures dense_levels { OneDenseLevels }
    ensures ratio_levels { OneRatioLevels }
{}

/// The text of an answer of the right shape is the text of no other one. Right answers have this shape: each layer holds an element, so
/// there are no more layers than elements.
pub fn texts_determine_answers()
    ensures layers { LayersFromText }
    ensures dense { DenseHasShape }
    ensures ratio { RatioHasShape }
{}

/// Layers worked by hand: what each layer of three edges in a row brings and costs, and that the second one cannot do without the edge to
/// the first; three vertices without edges; two items of which the first needs the second.
pub fn worked_layers()
    ensures numbers { EdgesNumbers }
    ensures forgotten { EdgesForgotten }
    ensures bare { BareLayers }
    ensures items { ItemNumbers }
{}

/// The header tells the kind of a text, whichever of the two kinds is tried first: what is not of another kind than `closure` is read as
/// one of that kind, likewise for `graph`, and a third kind is a wrong one.
pub fn kinds_are_told()
    ensures { (line : Line) (later : List Line) → IsReadByHeader line later }
{}
