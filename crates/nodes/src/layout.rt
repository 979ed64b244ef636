// Where the fields of a node's word stand, as specs/Words lays them out: a field is the word divided by its place, modulo how many values it has.

use params::limits::{LIST_BITS, NAME_BITS, OPERATOR_BITS};

// The kind.
pub const KIND_BITS: usize = 4;

pub const KINDS: u64 = 1 << KIND_BITS;

// An operator's number, or a flag.
pub const OP: u64 = KINDS;

pub const OPS: u64 = 1 << OPERATOR_BITS;

// A name's number, a string's length, or the count of an Ite's then-list.
pub const NAME: u64 = OP * OPS;

pub const NAMES: u64 = 1 << NAME_BITS;

// Where a number or the characters of a string stand; of an Ite its else-list's count and, above it, how many sections that list makes.
pub const POS: u64 = NAME * NAMES;

pub const POSITION_BITS: usize = 19;

pub const POSITIONS: u64 = 1 << POSITION_BITS;

pub const COUNTS: u64 = 1 << LIST_BITS;

// How many sections an Ite's then-list makes.
pub const WIDTH: u64 = POS * POSITIONS;

pub const WIDTH_BITS: usize = 13;

pub const WIDTHS: u64 = 1 << WIDTH_BITS;

// The node behind the subtree.
pub const LAST: u64 = WIDTH * WIDTHS;
