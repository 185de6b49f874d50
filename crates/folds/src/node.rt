// A row's kind, with a value in the place of each of its parts.
ghost use Rattle.std.specs.Prelude.{◌≡◌, ◌≤◌, Some};
ghost use Rattle.folds.specs.Stacks.{top_first};
ghost use Rattle.folds.specs.Folds.{part_count};
ghost use Rattle.folds.specs.Nodes.{node_of};

use crate::stack::Stack;
use tables::Kind;

// The parts stand in the order of their rows.
#[derive(Clone, Copy, PartialEq, Eq, Debug)]
pub enum Node<V> {
    Number,
    Name,
    Add(V, V),
    Sub(V, V),
    Mul(V, V),
    Div(V, V),
    Truth,
    Compare(V, V),
    Not(V),
    And(V, V),
    Or(V, V),
    Set(V),
    If(V, V),
    IfElse(V, V, V),
    While(V, V),
    Joint(V, V),
}

impl<V: Copy> Node<V> {
    // The last part's value is on top of the stack.
    pub(crate) fn on(stack: &Stack<V>, kind: Kind) -> Node<V>
        requires { part_count kind ≤ stack.now.held }
        ensures { Some result ≡ node_of kind (top_first stack.now.held stack.now.slots.now) }
    {
        match kind {
            Kind::Number => Node::Number,
            Kind::Name => Node::Name,
            Kind::Add => Node::Add(stack.peek(1), stack.peek(0)),
            Kind::Sub => Node::Sub(stack.peek(1), stack.peek(0)),
            Kind::Mul => Node::Mul(stack.peek(1), stack.peek(0)),
            Kind::Div => Node::Div(stack.peek(1), stack.peek(0)),
            Kind::Truth => Node::Truth,
            Kind::Compare => Node::Compare(stack.peek(1), stack.peek(0)),
            Kind::Not => Node::Not(stack.peek(0)),
            Kind::And => Node::And(stack.peek(1), stack.peek(0)),
            Kind::Or => Node::Or(stack.peek(1), stack.peek(0)),
            Kind::Set => Node::Set(stack.peek(0)),
            Kind::If => Node::If(stack.peek(1), stack.peek(0)),
            Kind::IfElse => Node::IfElse(stack.peek(2), stack.peek(1), stack.peek(0)),
            Kind::While => Node::While(stack.peek(1), stack.peek(0)),
            Kind::Joint => Node::Joint(stack.peek(1), stack.peek(0)),
        }
    }
}
