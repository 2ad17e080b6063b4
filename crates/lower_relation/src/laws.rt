//! Laws of the definitions, each on a function of its own without a body.
ghost use Rattle.lower_relation.specs.Functions.{GraphDoesNothingElse, GraphMeansText};

/// Whatever a text means on an input and within a bound of turns, a program does whose graphs do the bodies of the text's functions: the same
/// outcome and output, and the same visits of sites, with one number of the bank drawn and no work of sampling. Nothing is asked of the text,
/// neither that it is free of faults nor that what is said to be known of its tokens fits.
pub fn graph_means_text()
    ensures { GraphMeansText }
{}

/// Whatever such a program comes to, the text means: there is no other ending.
pub fn graph_does_nothing_else()
    ensures { GraphDoesNothingElse }
{}
