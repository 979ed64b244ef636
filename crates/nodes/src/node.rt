// A node's word: its kind and its fields, each shown equal to the field of its name in specs/Words. Assumes nothing.
// Between u64 and usize there is no `From`, and what is narrowed is shown to fit: so `as`.
ghost use Rattle.std.specs.Prelude.{◌≡◌, ℕ, eqb};
ghost use Rattle.rules.specs.Bits.{isOne};
ghost use Rattle.nodes.specs.Words.{kindIn, opIn, nameIn, posIn, widthIn, lastIn, elseCount, elseWidth};
ghost use Rattle.nodes.specs.Kinds.{kindTold};

use crate::kinds::NodeKind;
use crate::layout::{COUNTS, KINDS, LAST, NAME, NAMES, OP, OPS, POS, POSITIONS, WIDTH, WIDTHS};

// A node, by its word.
#[derive(Clone, Copy)]
pub struct Node(pub u64);

impl Node {
    // Is it of this kind?
    pub fn is(self, kind: NodeKind) -> bool
        ensures { result ≡ eqb (kindIn self.0) (kindTold kind) }
    {
        self.0 % KINDS == kind as u64
    }

    // An operator's number.
    pub fn op(self) -> u64
        ensures { result ≡ opIn self.0 }
    {
        self.0 / OP % OPS
    }

    // A flag, where an operator's number stands.
    #[tactic(auto, unfolding(rules::specs::Bits::isOne))]
    pub fn flag(self) -> bool
        ensures { result ≡ isOne (opIn self.0) }
    {
        self.op() == 1
    }

    // A name's number, a string's length, or the count of an Ite's then-list.
    pub fn name(self) -> usize
        ensures { result ≡ nameIn self.0 }
    {
        (self.0 / NAME % NAMES) as usize
    }

    // Where a number or the characters of a string stand.
    pub fn pos(self) -> usize
        ensures { result ≡ posIn self.0 }
    {
        (self.0 / POS % POSITIONS) as usize
    }

    // How many sections an Ite's then-list makes.
    pub fn width(self) -> u16
        ensures { result ≡ widthIn self.0 }
    {
        (self.0 / WIDTH % WIDTHS) as u16
    }

    // The node behind the subtree.
    pub fn last(self) -> usize
        ensures { result ≡ lastIn self.0 }
    {
        (self.0 / LAST) as usize
    }

    // The count of an Ite's else-list, and how many sections that makes.

    pub fn else_count(self) -> usize
        ensures { result ≡ elseCount self.0 }
    {
        self.pos() % COUNTS as usize
    }

    pub fn else_width(self) -> u16
        ensures { result ≡ elseWidth self.0 }
    {
        (self.0 / POS % POSITIONS / COUNTS) as u16
    }
}
