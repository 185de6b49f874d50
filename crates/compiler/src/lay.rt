// Laying the code of a node's tree, known to have room: a fact on the node and the code together, so each function that
// lays one asks for it. A jump over code is written once that code is laid, since its target is the next address then.
ghost use Rattle.std.specs.Prelude.{◌≡◌, ◌<◌, ◌≤◌, length};
ghost use Rattle.compiler.specs.Parts.{IsPart, shape_at};
ghost use Rattle.compiler.specs.Written.{HasRoomIn, LaysPart, stepped, with_line};
ghost use Rattle.compiler.specs.declared.shape.Shape.TheVariants as shape;

use crate::node::Node;
use crate::operation::{instruction_of, point_of};
use crate::shape::Shape;
use instructions::Instruction;
use tables::Row;

// The next address, and the two lists that callers of `compile` lend, an instruction and its place side by side.
#[derive(Drop)]
pub(crate) struct Code<'a> {
    pub(crate) instructions: &'a mut [Instruction],
    pub(crate) places: &'a mut [u16],
    pub(crate) next: usize,
}

impl Code<'_> {
    #[cycle(lay)]
    #[inline(always)]
    pub(crate) fn lay(&mut self, node: Node<'_>)
        requires { HasRoomIn node.rows.now node.end self.old }
        ensures { LaysPart node.entry.rows.now node.entry.end self.old self.new }
    {
        self.lay_before(node.rows, node.end);
    }

    // Here the recursion passes a node's two fields by themselves: a struct is passed through memory, which would make
    // each call's frame several times as large, and a deep tree has many.
    #[cycle(lay)]
    fn lay_before(&mut self, rows: &[Row], end: usize)
        requires room { HasRoomIn rows.now end self.old }
        requires stands { IsPart rows.now end }
        requires few { length rows.now ≤ 2048 }
        ensures { LaysPart rows.now end self.old self.new }
    {
        let node = Node { rows, end };
        let row = node.row();
        match Shape::from(row.kind) {
            Shape::Leaf => self.put(instruction_of(row), row.place),
            Shape::Not => {
                self.lay(node.last());
                self.put(instruction_of(row), row.place);
            }
            Shape::Set => {
                self.lay(node.last());
                self.put(Instruction::Save(point_of(row)), row.place);
                self.put(Instruction::Pop, row.place);
            }
            Shape::Pair => {
                let (left, right) = node.two();
                self.lay(left);
                self.lay(right);
                self.put(instruction_of(row), row.place);
            }
            Shape::Joint => {
                let (first, rest) = node.two();
                self.lay(first);
                self.lay(rest);
            }
            Shape::If => self.lay_if(node),
            Shape::IfElse => self.lay_if_else(node),
            Shape::While => self.lay_while(node),
        }
    }

    #[cycle(lay)]
    fn lay_if(&mut self, node: Node<'_>)
        requires part { HasRoomIn node.rows.now node.end self.old }
        requires shape { shape_at node.rows.now node.end ≡ shape.If }
        ensures { LaysPart node.entry.rows.now node.entry.end self.old self.new }
    {
        let place = node.row().place;
        let (condition, body) = node.two();
        self.lay(condition);
        let jump = self.skip();
        self.lay(body);
        self.put_at(jump, Instruction::JumpF(self.next as u16), place);
    }

    #[cycle(lay)]
    fn lay_if_else(&mut self, node: Node<'_>)
        requires part { HasRoomIn node.rows.now node.end self.old }
        requires shape { shape_at node.rows.now node.end ≡ shape.IfElse }
        ensures { LaysPart node.entry.rows.now node.entry.end self.old self.new }
    {
        let place = node.row().place;
        let (condition, body, other) = node.three();
        self.lay(condition);
        let to_other = self.skip();
        self.lay(body);
        let to_end = self.skip();
        self.put_at(to_other, Instruction::JumpF(self.next as u16), place);
        self.lay(other);
        self.put_at(to_end, Instruction::Jump(self.next as u16), place);
    }

    #[cycle(lay)]
    fn lay_while(&mut self, node: Node<'_>)
        requires part { HasRoomIn node.rows.now node.end self.old }
        requires shape { shape_at node.rows.now node.end ≡ shape.While }
        ensures { LaysPart node.entry.rows.now node.entry.end self.old self.new }
    {
        let place = node.row().place;
        let (condition, body) = node.two();
        let start = self.next;
        self.lay(condition);
        let out = self.skip();
        self.lay(body);
        self.put(Instruction::Jump(start as u16), place);
        self.put_at(out, Instruction::JumpF(self.next as u16), place);
    }

    // An instruction and its place, at the next address.
    fn put(&mut self, instruction: Instruction, place: u16)
        requires { (self.old.next < length self.old.instructions.now) × (self.old.next < length self.old.places.now) }
        ensures { self.new ≡ stepped (with_line self.old self.old.next instruction place) }
    {
        self.put_at(self.next, instruction, place);
        self.next += 1;
    }

    // The same over what is at an address.
    fn put_at(&mut self, address: usize, instruction: Instruction, place: u16)
        requires { (address < length self.old.instructions.now) × (address < length self.old.places.now) }
        ensures { self.new ≡ with_line self.old address instruction place }
    {
        self.instructions[address] = instruction;
        self.places[address] = place;
    }

    // The next address is left for a jump that is written later.
    fn skip(&mut self) -> usize
        requires { self.old.next < length self.old.instructions.now }
        ensures address { result ≡ self.old.next }
        ensures next { self.new ≡ stepped self.old }
    {
        let address = self.next;
        self.next += 1;
        address
    }
}
