// Why a call refuses: of a tree file, of lent tables, and of a machine in them. specs/Told gives each its number.
ghost use Rattle.std.specs.Prelude.{◌≡◌};
ghost use Rattle.params.specs.Told.{numberOf};

#[derive(Clone, Copy, Debug, PartialEq, Eq)]
pub enum Refusal {
    // The form is another.
    OtherForm = 1,

    // There are zero lines.
    ZeroLines,

    // The file ends inside a field.
    EndsInField,

    // A kind or an operator is unassigned.
    Unassigned,

    // A name is not in the table.
    UnknownName,

    // A name is the second of two equal ones.
    EqualNames,

    // A node has depth 65.
    TooDeep,

    // A node is number 2,049.
    TooManyNodes,

    // A fill bit is not zero, or a byte is left over.
    LeftOver,

    // The file is longer than is read.
    TooLong,

    // A lent table is shorter than its estimate; for replace, no slot for an added number or string.
    NoRoom,

    // Words break the rules of a machine.
    BreaksRules,

    // Clean: a section below L is unfixed, or a jump targets an unfixed section.
    NeedsUnfixed,

    // Combine: a section is unfixed.
    IsUnfixed,

    // Combine: a successor that is no line start lies below its section.
    LinksBack,
}

impl Refusal {
    // Its number.
    pub fn number(self) -> u64
        ensures { result ≡ numberOf self }
    {
        self as u64
    }
}
