/// What is done with the runs in which the leading predicate was true, before the next leader is chosen (PLDI 2005 section 5):
/// all of them are discarded, or those of them that failed are, or those that failed count as successful from then on.
#[derive(Clone, Copy, Debug, PartialEq, Eq)]
pub enum Policy {
    All,
    Failing,
    Relabel,
}
