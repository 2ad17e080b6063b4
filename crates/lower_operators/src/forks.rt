ghost use Rattle.std.specs.Prelude.{◌≡◌};
ghost use Rattle.c_meaning.specs.Trees.{joint_of_sign};
ghost use Rattle.lower_operators.specs.Forking.{forks_at, is_short, no_before, yes_before};
ghost use Rattle.lower_facts.specs.Facts.{sites_in};

use c_syntax::{Link, Sign};
use lower_facts::TreeFacts;
use lower_trees::{Joint, joint_by};

/// Whether the operator needs no value of its left side: it is `&&` or `||`, without a site.
pub fn forks_at(facts: &TreeFacts, link: &Link) -> bool
    ensures { result ≡ forks_at ((sites_in facts.now).branch_at link.now.token) (joint_of_sign link.now.sign) }
{
    if facts.branch_at(link.token).is_some() {
        return false;
    }
    is_short(link.sign)
}

/// Whether the operator is `&&` or `||`.
pub fn is_short(sign: Sign) -> bool
    ensures { result ≡ is_short (joint_of_sign sign) }
{
    match joint_by(sign) {
        Joint::Both | Joint::Either => true,
        Joint::Computes { .. } | Joint::Unjoined => false,
    }
}

/// Where a left side that is true goes on.
pub fn yes_before(sign: Sign, right: u32, next: u32) -> u32
    ensures { result ≡ yes_before (joint_of_sign sign) right next }
{
    match joint_by(sign) {
        Joint::Both => right,
        _ => next,
    }
}

/// Where one that is false goes on.
pub fn no_before(sign: Sign, right: u32, next: u32) -> u32
    ensures { result ≡ no_before (joint_of_sign sign) right next }
{
    match joint_by(sign) {
        Joint::Both => next,
        _ => right,
    }
}
