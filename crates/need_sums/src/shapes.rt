// What a kind of term takes when it runs, and what becomes of its children.
ghost use Rattle.std.specs.Prelude.{◌≡◌};
ghost use Rattle.image.specs.Kinds.{TermKind, term_row};
ghost use Rattle.need_sums.specs.Walks.{shape_of, role_at};

use read_records::kinds;

// What a term's own reduction takes: nothing, if it has none; else a step, and besides a label, a log record, an installed
// advice, a cell, a piece (of an advice or of something else), bindings, a piece for each kept value, or what all advice takes
// at a mark.
#[derive(Clone, Copy, PartialEq, Eq)]
pub enum Own {
    Nothing,
    Step,
    Label,
    Print,
    Advice,
    Cell,
    Piece,
    Advised,
    Binding,
    TwoBindings,
    Stack,
    Mark,
}

// What becomes of a child: it does not run; it is worked out first, inside its parent, at its domain or lowered, or while a
// value is kept; it is what goes on in its parent's place, or one of two such, of which the first may bind variables; it is the
// body of an advice; it is what is installed.
#[derive(Clone, Copy, PartialEq, Eq)]
pub enum Role {
    Skipped,
    Operand,
    Lowered,
    Kept,
    Next,
    Branch,
    FirstBranch,
    AdviceBody,
    Installed,
}

// The roles of the first three children, and of those behind them.
#[derive(Clone, Copy)]
pub struct Shape {
    pub own: Own,
    pub first: Role,
    pub second: Role,
    pub third: Role,
    pub rest: Role,
}

fn childless(own: Own) -> Shape
    ensures { result ≡ Rattle.need_sums.specs.Walks.childless own }
{
    Shape {
        own,
        first: Role::Skipped,
        second: Role::Skipped,
        third: Role::Skipped,
        rest: Role::Skipped,
    }
}

fn one(own: Own, first: Role) -> Shape
    ensures { result ≡ Rattle.need_sums.specs.Walks.one own first }
{
    Shape {
        first,
        ..childless(own)
    }
}

// The first child is worked out first.
fn two(own: Own, second: Role) -> Shape
    ensures { result ≡ Rattle.need_sums.specs.Walks.two own second }
{
    Shape {
        second,
        ..one(own, Role::Operand)
    }
}

fn three(second: Role, third: Role, rest: Role) -> Shape
    ensures { result ≡ Rattle.need_sums.specs.Walks.three second third rest }
{
    Shape {
        third,
        rest,
        ..two(Own::Step, second)
    }
}

// Constants, variables and the kinds with a body that does not run take nothing. What is left is an operator without operands
// that takes a step and nothing besides.
// Kept: a kind is the number that stands in a record's head (`term_row`, which the definition of an image reads).
pub fn shape_of(kind: u16) -> Shape
    ensures { (k : TermKind) → kind ≡ (term_row k).number → result ≡ shape_of k }
{
    match kind {
        kinds::UNIT => childless(Own::Nothing),
        kinds::TRUTH => childless(Own::Nothing),
        kinds::NUMBER => childless(Own::Nothing),
        kinds::VARIABLE => childless(Own::Nothing),
        kinds::SEQUENCE => two(Own::Step, Role::Next),
        kinds::PRINT => one(Own::Print, Role::Operand),
        kinds::CHOICE => three(Role::Branch, Role::Branch, Role::Skipped),
        kinds::PAIR => two(Own::Piece, Role::Operand),
        kinds::SPLIT => two(Own::TwoBindings, Role::Next),
        kinds::FUNCTION => childless(Own::Nothing),
        kinds::APPLY => two(Own::Binding, Role::Operand),
        kinds::ARITHMETIC => two(Own::Step, Role::Operand),
        kinds::NEW_LABEL => childless(Own::Label),
        kinds::MARK => two(Own::Mark, Role::Operand),
        kinds::POINTCUT => Shape {
            own: Own::Piece,
            first: Role::Operand,
            second: Role::Operand,
            third: Role::Operand,
            rest: Role::Operand,
        },
        kinds::ADVICE => two(Own::Advised, Role::AdviceBody),
        kinds::INSTALL => one(Own::Advice, Role::Installed),
        kinds::NEW_CELL => one(Own::Cell, Role::Operand),
        kinds::READ => one(Own::Step, Role::Operand),
        kinds::STORE => two(Own::Step, Role::Operand),
        kinds::LOWER => one(Own::Step, Role::Lowered),
        kinds::OBJECT => childless(Own::Nothing),
        kinds::CALL => one(Own::Binding, Role::Operand),
        kinds::STACK => childless(Own::Stack),
        kinds::KEEP => three(Role::Operand, Role::Kept, Role::Skipped),
        kinds::MATCH => three(Role::FirstBranch, Role::Branch, Role::Operand),
        kinds::FRAME_BYTE => one(Own::Step, Role::Operand),
        _ => childless(Own::Step),
    }
}

impl Shape {
    // The role of child j.
    pub fn role_at(self, j: usize) -> Role
        ensures { result ≡ role_at self j }
    {
        match j {
            0 => self.first,
            1 => self.second,
            2 => self.third,
            _ => self.rest,
        }
    }
}
