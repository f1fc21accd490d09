//! Parameters and their order.

ghost use Rattle.pf_model.specs.ParameterLaws.{OrderIsTotal, OrderIsTransitive, OrderIsAntisymmetric, OrderIsCompared, LowestIsLowest, OnlyLowest};

/// Of two parameters one is below the other or at most it, and the order is transitive and antisymmetric, where parameters
/// are equal by their cross products.
pub fn order_is_an_order()
    ensures total { OrderIsTotal }
    ensures transitive { OrderIsTransitive }
    ensures antisymmetric { OrderIsAntisymmetric }
    ensures compared { OrderIsCompared }
{}

/// Each parameter is equal to exactly one in lowest terms.
pub fn lowest_terms_are_unique()
    ensures is { LowestIsLowest }
    ensures only { OnlyLowest }
{}
