//! Laws of the definitions, each on a function of its own without a body.
ghost use Rattle.weights.specs.Weight.{OneWeight};

/// A node has one weight.
pub fn one_weight()
    ensures { OneWeight }
{}
