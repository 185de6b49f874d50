// How a row's code is made of its parts' code: the sixteen kinds come down to eight shapes.
ghost use Rattle.std.specs.Prelude.{◌≡◌};
ghost use Rattle.compiler.specs.Measures.{shape_of, IsShapeOf, own_length};

use tables::Kind;

#[derive(Clone, Copy)]
pub enum Shape {
    // One instruction, no parts: number, name, truth.
    Leaf,
    Not,
    // Two values and one instruction on them: sums, comparisons, `&&` and `||`.
    Pair,
    Set,
    If,
    IfElse,
    While,
    Joint,
}

impl From<Kind> for Shape {
    ghost from_gives = { IsShapeOf };

    fn from(kind: Kind) -> Shape
        ensures { result ≡ shape_of kind }
    {
        match kind {
            Kind::Number | Kind::Name | Kind::Truth => Shape::Leaf,
            Kind::Add | Kind::Sub | Kind::Mul | Kind::Div => Shape::Pair,
            Kind::Compare | Kind::And | Kind::Or => Shape::Pair,
            Kind::Not => Shape::Not,
            Kind::Set => Shape::Set,
            Kind::If => Shape::If,
            Kind::IfElse => Shape::IfElse,
            Kind::While => Shape::While,
            Kind::Joint => Shape::Joint,
        }
    }
}

impl Shape {
    // How many instructions a row adds to its parts' code.
    pub(crate) fn own_length(self) -> u32
        ensures { result ≡ own_length self }
    {
        match self {
            Shape::Leaf | Shape::Not | Shape::Pair | Shape::If => 1,
            Shape::Set | Shape::IfElse | Shape::While => 2,
            Shape::Joint => 0,
        }
    }
}
