ghost use Rattle.std.specs.Prelude.{◌≡◌};
ghost use Rattle.flow.specs.View.{view, moved_to};
ghost use Rattle.flow.specs.Nodes.{successors, listed_ways};
ghost use Rattle.flow.specs.declared.node.View.TheVariants.{Row};

use cbi_base::{Binary, Kind, Order, Unary, Want};

/// A node of a function: what the machine does there, and the number of the node where it goes on. Where a node takes several
/// operands, the last one named is the top one.
#[derive(Clone, Copy, Debug)]
pub enum Node {
    /// Pushes the number `value` of this kind.
    Push { kind: Kind, value: i64, next: u32 },
    /// Pushes null.
    Null { next: u32 },
    /// Pushes the place of a local's first cell.
    Local { index: u32, next: u32 },
    /// Pushes the place of a global's first cell.
    Global { index: u32, next: u32 },
    /// Pushes the place of a text's first byte.
    Text { index: u32, next: u32 },
    /// Takes a pointer, and pushes the value there.
    Load { want: Want, next: u32 },
    /// Takes a place and a value, stores the value, and pushes it.
    Store { next: u32 },
    /// Takes a pointer and a number, and pushes the pointer moved by number times `size` cells.
    Move { size: i32, next: u32 },
    /// Takes a pointer, and pushes it moved by `offset` cells.
    Member { offset: u32, next: u32 },
    /// Takes two pointers, and pushes how many elements of `size` cells lie from the second one to the first one.
    Span { size: u32, next: u32 },
    /// Takes two numbers, and pushes what the operation gives.
    Math { op: Binary, next: u32 },
    /// Takes two pointers, and pushes whether they stand so, as an `int`.
    Order { op: Order, next: u32 },
    /// Takes a value, and pushes what the operation gives.
    Sole { op: Unary, next: u32 },
    /// Takes a number, and pushes it converted.
    Convert { kind: Kind, next: u32 },
    /// Takes a value, and pushes it twice.
    Dup { next: u32 },
    /// Takes a value.
    Drop { next: u32 },
    /// Takes two values, and pushes them the other way round.
    Swap { next: u32 },
    /// Pushes the value under the top one.
    Over { next: u32 },
    /// Nothing.
    Pass { next: u32 },
    /// Takes a value, and goes on at `yes` where it is true, and else at `no`.
    Fork { yes: u32, no: u32 },
    /// Spends a turn, or cuts the run where none is left.
    Again { next: u32 },
    /// Spends a turn, or cuts the run; then takes the function's arguments and enters it.
    Call { function: u32, next: u32 },
    /// Takes a value and leaves the function with it.
    Return,
    /// Leaves the function, with an undefined value where it has a result.
    Leave,
    /// Pushes the next byte of the input as an `int`, or -1 at its end.
    Get { next: u32 },
    /// Takes an `int`, writes it modulo 256 as a byte, and pushes that.
    Put { next: u32 },
    /// Takes a pointer, writes the string there and a newline, and pushes the `int` 0.
    Puts { next: u32 },
    /// Takes `count` values, and writes them by a text as format.
    Format { text: u32, count: u32, next: u32 },
    /// Takes an `unsigned`, and pushes a pointer to so many new cells, or null.
    Alloc { next: u32 },
    /// Takes a pointer to an object of `Alloc`, which is dead from then on.
    Free { next: u32 },
    /// Takes an `int`, and ends the run with it as its status.
    Exit,
    /// Stops the run.
    Abort,
    /// Takes a value, and stops the run where it is false.
    Check { next: u32 },
    /// Makes a local undefined.
    Clear { index: u32, next: u32 },
    /// Makes all cells of a local zero of this kind, or null.
    Zero { index: u32, want: Want, next: u32 },
    /// Stores a text's bytes into a local, from its first cell on.
    Spell { index: u32, text: u32, next: u32 },
    /// Observes a site.
    Mark { site: u32, next: u32 },
    /// Lowers the countdown by `by`.
    Skip { by: u32, next: u32 },
    /// Lowers the countdown by one, and where it is then zero, observes a site and draws the next countdown.
    Test { site: u32, next: u32 },
    /// Goes on at `fast` where the countdown is greater than `weight`, and else at `slow`.
    Choose { weight: u32, fast: u32, slow: u32 },
    /// Makes the frame's copy of the countdown equal to the shared one.
    Import { next: u32 },
    /// Makes the shared countdown equal to the frame's copy, which goes.
    Export { next: u32 },
}

/// How control goes on at a node. What a row does to the data is a matter of its node, which stands in it with the successor 0.
#[derive(Clone, Copy, Debug)]
pub enum View {
    /// The node acts on the data, and control goes on at its one successor.
    Row { node: Node, next: u32 },
    /// The node acts on the data, and that ends the run.
    Halts { node: Node },
    /// Control goes on where the truth of the value on top says.
    Forks { yes: u32, no: u32 },
    /// A turn is spent.
    Turns { next: u32 },
    /// A turn is spent, and a function is entered.
    Calls { function: u32, next: u32 },
    /// The function is left with the value on top.
    Gives,
    /// The function is left.
    Quits,
    /// A site is observed.
    Marks { site: u32, next: u32 },
    /// The countdown is lowered.
    Skips { by: u32, next: u32 },
    /// The countdown is lowered by one, and a site is observed where it is then zero.
    Tests { site: u32, next: u32 },
    /// Control goes on where the countdown says.
    Picks { weight: u32, fast: u32, slow: u32 },
    /// The frame takes a copy of the countdown.
    Imports { next: u32 },
    /// The frame gives its copy of the countdown back.
    Exports { next: u32 },
    /// There is no such node.
    Nowhere,
}

/// The nodes to which a node leads, in the order of its line.
#[derive(Clone, Copy, Debug)]
pub enum Ways {
    None,
    One { next: u32 },
    Two { first: u32, second: u32 },
}

fn row(node: Node, next: u32) -> View
    ensures { result ≡ Row node next }
{
    View::Row { node, next }
}

/// The view of a node.
pub fn view_of(node: Node) -> View
    ensures { result ≡ view node }
{
    let at = 0;
    match node {
        Node::Push { kind, value, next } => row(
            Node::Push {
                kind,
                value,
                next: at,
            },
            next,
        ),
        Node::Null { next } => row(Node::Null { next: at }, next),
        Node::Local { index, next } => row(Node::Local { index, next: at }, next),
        Node::Global { index, next } => row(Node::Global { index, next: at }, next),
        Node::Text { index, next } => row(Node::Text { index, next: at }, next),
        Node::Load { want, next } => row(Node::Load { want, next: at }, next),
        Node::Store { next } => row(Node::Store { next: at }, next),
        Node::Move { size, next } => row(Node::Move { size, next: at }, next),
        Node::Member { offset, next } => row(Node::Member { offset, next: at }, next),
        Node::Span { size, next } => row(Node::Span { size, next: at }, next),
        Node::Math { op, next } => row(Node::Math { op, next: at }, next),
        Node::Order { op, next } => row(Node::Order { op, next: at }, next),
        Node::Sole { op, next } => row(Node::Sole { op, next: at }, next),
        Node::Convert { kind, next } => row(Node::Convert { kind, next: at }, next),
        Node::Dup { next } => row(Node::Dup { next: at }, next),
        Node::Drop { next } => row(Node::Drop { next: at }, next),
        Node::Swap { next } => row(Node::Swap { next: at }, next),
        Node::Over { next } => row(Node::Over { next: at }, next),
        Node::Pass { next } => row(Node::Pass { next: at }, next),
        Node::Get { next } => row(Node::Get { next: at }, next),
        Node::Put { next } => row(Node::Put { next: at }, next),
        Node::Puts { next } => row(Node::Puts { next: at }, next),
        Node::Format { text, count, next } => row(
            Node::Format {
                text,
                count,
                next: at,
            },
            next,
        ),
        Node::Alloc { next } => row(Node::Alloc { next: at }, next),
        Node::Free { next } => row(Node::Free { next: at }, next),
        Node::Check { next } => row(Node::Check { next: at }, next),
        Node::Clear { index, next } => row(Node::Clear { index, next: at }, next),
        Node::Zero { index, want, next } => row(
            Node::Zero {
                index,
                want,
                next: at,
            },
            next,
        ),
        Node::Spell { index, text, next } => row(
            Node::Spell {
                index,
                text,
                next: at,
            },
            next,
        ),
        Node::Exit | Node::Abort => View::Halts { node },
        Node::Fork { yes, no } => View::Forks { yes, no },
        Node::Again { next } => View::Turns { next },
        Node::Call { function, next } => View::Calls { function, next },
        Node::Return => View::Gives,
        Node::Leave => View::Quits,
        Node::Mark { site, next } => View::Marks { site, next },
        Node::Skip { by, next } => View::Skips { by, next },
        Node::Test { site, next } => View::Tests { site, next },
        Node::Choose { weight, fast, slow } => View::Picks { weight, fast, slow },
        Node::Import { next } => View::Imports { next },
        Node::Export { next } => View::Exports { next },
    }
}

/// The same node with another successor, where it has one successor.
pub fn with_next(node: Node, next: u32) -> Node
    ensures { view result ≡ moved_to next (view node) }
{
    match node {
        Node::Push { kind, value, .. } => Node::Push { kind, value, next },
        Node::Null { .. } => Node::Null { next },
        Node::Local { index, .. } => Node::Local { index, next },
        Node::Global { index, .. } => Node::Global { index, next },
        Node::Text { index, .. } => Node::Text { index, next },
        Node::Load { want, .. } => Node::Load { want, next },
        Node::Store { .. } => Node::Store { next },
        Node::Move { size, .. } => Node::Move { size, next },
        Node::Member { offset, .. } => Node::Member { offset, next },
        Node::Span { size, .. } => Node::Span { size, next },
        Node::Math { op, .. } => Node::Math { op, next },
        Node::Order { op, .. } => Node::Order { op, next },
        Node::Sole { op, .. } => Node::Sole { op, next },
        Node::Convert { kind, .. } => Node::Convert { kind, next },
        Node::Dup { .. } => Node::Dup { next },
        Node::Drop { .. } => Node::Drop { next },
        Node::Swap { .. } => Node::Swap { next },
        Node::Over { .. } => Node::Over { next },
        Node::Pass { .. } => Node::Pass { next },
        Node::Get { .. } => Node::Get { next },
        Node::Put { .. } => Node::Put { next },
        Node::Puts { .. } => Node::Puts { next },
        Node::Format { text, count, .. } => Node::Format { text, count, next },
        Node::Alloc { .. } => Node::Alloc { next },
        Node::Free { .. } => Node::Free { next },
        Node::Check { .. } => Node::Check { next },
        Node::Clear { index, .. } => Node::Clear { index, next },
        Node::Zero { index, want, .. } => Node::Zero { index, want, next },
        Node::Spell { index, text, .. } => Node::Spell { index, text, next },
        Node::Again { .. } => Node::Again { next },
        Node::Call { function, .. } => Node::Call { function, next },
        Node::Mark { site, .. } => Node::Mark { site, next },
        Node::Skip { by, .. } => Node::Skip { by, next },
        Node::Test { site, .. } => Node::Test { site, next },
        Node::Import { .. } => Node::Import { next },
        Node::Export { .. } => Node::Export { next },
        Node::Fork { .. }
        | Node::Choose { .. }
        | Node::Return
        | Node::Leave
        | Node::Exit
        | Node::Abort => node,
    }
}

/// The nodes to which a node leads.
pub fn successors(node: Node) -> Ways
    ensures { listed_ways result ≡ successors node }
{
    match view_of(node) {
        View::Row { next, .. }
        | View::Turns { next }
        | View::Calls { next, .. }
        | View::Marks { next, .. }
        | View::Skips { next, .. }
        | View::Tests { next, .. }
        | View::Imports { next }
        | View::Exports { next } => Ways::One { next },
        View::Forks { yes, no } => Ways::Two {
            first: yes,
            second: no,
        },
        View::Picks { fast, slow, .. } => Ways::Two {
            first: fast,
            second: slow,
        },
        View::Halts { .. } | View::Gives | View::Quits | View::Nowhere => Ways::None,
    }
}
