// The kinds of nodes, by their numbers in words: an expression's is that of the file, a statement's is 8 more.
ghost use Rattle.nodes.specs.Kinds.{KindOf};

use params::refusal::Refusal;

// A statement's kind is its number in the file, counted from here.
pub const STATEMENTS: u64 = NodeKind::Goto as u64;

// The kind of a node.
#[derive(Clone, Copy)]
pub enum NodeKind {
    Binop = 0,
    Unop,
    Incdec,
    Ident,
    Number,
    String,
    Goto = 8,
    Ite,
    // An Incdec as a statement.
    Step,
    Assign,
}

// The kind of a number; one that is no kind's is unassigned. An enum's number is no pattern, so the numbers stand here again.
impl TryFrom<u64> for NodeKind {
    type Error = Refusal;

    ghost try_from_gives = { KindOf };

    fn try_from(number: u64) -> Result<Self, Refusal> {
        match number {
            0 => Ok(NodeKind::Binop),
            1 => Ok(NodeKind::Unop),
            2 => Ok(NodeKind::Incdec),
            3 => Ok(NodeKind::Ident),
            4 => Ok(NodeKind::Number),
            5 => Ok(NodeKind::String),
            8 => Ok(NodeKind::Goto),
            9 => Ok(NodeKind::Ite),
            10 => Ok(NodeKind::Step),
            11 => Ok(NodeKind::Assign),
            _ => Err(Refusal::Unassigned),
        }
    }
}
