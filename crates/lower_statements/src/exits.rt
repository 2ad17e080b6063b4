ghost use Rattle.std.specs.Prelude.{◌≡◌};
ghost use Rattle.lower_relation.specs.Statements.{within_loop};
ghost use Rattle.lower_statements.specs.Exits.{exits_of};

/// Where a statement goes on: after it, at a `break`, at a `continue`, at a `return` with a value and at one without.
#[derive(Clone, Copy, Debug)]
pub struct Exits {
    pub next: u32,
    pub breaks: u32,
    pub continues: u32,
    pub gives: u32,
    pub leaves: u32,
}

/// Where the body of a loop goes on: at its next round, and after the loop.
pub fn within_loop(exits: Exits, again: u32, after: u32) -> Exits
    ensures { exits_of result ≡ within_loop again after (exits_of exits) }
{
    Exits {
        next: again,
        breaks: after,
        continues: again,
        gives: exits.gives,
        leaves: exits.leaves,
    }
}

/// Where a statement goes on that stands before another one.
pub fn next_at(exits: Exits, next: u32) -> Exits
    ensures { exits_of result ≡ record (exits_of exits) { next = next } }
{
    Exits {
        next,
        breaks: exits.breaks,
        continues: exits.continues,
        gives: exits.gives,
        leaves: exits.leaves,
    }
}
