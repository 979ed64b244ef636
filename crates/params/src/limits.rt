// The limits, and the widths of the tree form's fields.

// The bytes of a file.
pub const MOST_BYTES: usize = 32768;

// The depth of a node; a line's statement has depth 1.
pub const MOST_DEPTH: usize = 64;

// The nodes of a tree: statements and expressions.
pub const MOST_NODES: usize = 2048;

// The lines of a file, and of a machine.
pub const MOST_LINES: usize = 255;

// The form's number.
pub const FORM: u64 = 1;

// The form, and the count of lines.
pub const HEAD_BITS: usize = 8;

// The count of names, and the number of one.
pub const NAME_BITS: usize = 8;

// A name's length minus one.
pub const NAME_LENGTH_BITS: usize = 6;

// A character, of a name or of a string.
pub const CHAR_BITS: usize = 7;

// A string's length.
pub const STRING_LENGTH_BITS: usize = 7;

// A flag: global, or inc.
pub const FLAG_BITS: usize = 1;

// The count of a list of statements.
pub const LIST_BITS: usize = 6;

// A number, in two's complement.
pub const NUMBER_BITS: usize = 64;

// A statement's kind.
pub const STMT_KIND_BITS: usize = 2;

// An expression's kind.
pub const EXPR_KIND_BITS: usize = 3;

// The operator of a Binop or an Unop.
pub const OPERATOR_BITS: usize = 4;

// The operator of an Assign.
pub const ASSIGN_BITS: usize = 3;

// A byte.
pub const BYTE_BITS: usize = 8;

// How many binary operators are assigned.
pub const BINOPS: u64 = 14;

// How many unary operators are assigned.
pub const UNOPS: u64 = 11;

// How many operators of an Assign are assigned.
pub const ASSIGNOPS: u64 = 7;

// A count of a machine.
pub const MOST_COUNT: usize = 65535;

// The target of an unfixed section, and the word of a name without a register: no section and no register has this number.
pub const MARK: u16 = 65535;
