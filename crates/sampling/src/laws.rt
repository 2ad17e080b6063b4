//! Laws of the definitions, each on a function of its own without a body.
ghost use Rattle.sampling.specs.Choices.{ChoosesRarely};
ghost use Rattle.sampling.specs.FastCopies.{FastLooksAtNothing, FastWaysLookAtNothing};
ghost use Rattle.sampling.specs.Labelling.{OneLabelling};
ghost use Rattle.sampling.specs.Runs.{SampledRuns};

/// Whatever a ready program comes to, its sampled program comes to, and observes the samples of its visits.
pub fn sampled_runs()
    ensures { SampledRuns }
{}

/// The fast copy of a function neither visits nor tests a site.
pub fn fast_copies_look_at_nothing()
    ensures { FastLooksAtNothing }
{}

/// Control passes the choice of a copy where a weighty function is entered, after each turn of a loop in it, after each call of a weighty function in
/// it, and nowhere else: where control falls into a loop from above, no copy is chosen.
pub fn copies_are_chosen_at_regions()
    ensures { ChoosesRarely }
{}

/// From where the fast copy is chosen, control comes to no visit or test of a site before the region ends.
pub fn fast_ways_look_at_nothing()
    ensures { FastWaysLookAtNothing }
{}

/// A function and its copies say of each node that control may reach what it stands for: two labellings that fit agree there.
pub fn one_labelling()
    ensures { OneLabelling }
{}
