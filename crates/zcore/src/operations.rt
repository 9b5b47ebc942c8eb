//! The table of opcodes.

ghost use Rattle.std.specs.Prelude.{◌≡◌, ◌<◌, IfSome};
ghost use Rattle.zcore.specs.Operations as table;
ghost use Rattle.zcore.specs.Operations.{row_of, count_of, number_of};
ghost use Rattle.zcore.specs.declared.operations.OperandCount.TheVariants as counts;

use crate::instruction::Operation;

/// The count of operands by which opcodes are numbered (Z-Machine Standards Document 1.1, sections
/// 4.3 and 14).
#[derive(Clone, Copy, Debug, PartialEq, Eq)]
pub enum OperandCount {
    /// Two operands, 2OP: long form, or variable form.
    Two,

    /// One operand, 1OP: short form.
    One,

    /// No operand, 0OP: short form.
    Zero,

    /// Any number of operands, VAR: variable form.
    Several,
}

/// A row of the table of opcodes (section 14): an operation's opcode, how many operands it takes,
/// and what follows them.
#[derive(Clone, Copy, Debug, PartialEq, Eq)]
pub struct OpcodeRow {
    /// The count of operands by which the opcode is numbered.
    pub count: OperandCount,

    /// The opcode's number among those of its count.
    pub number: u8,

    /// The least number of operands.
    pub least_operands: usize,

    /// The greatest number of operands.
    pub most_operands: usize,

    /// Whether the variable for a result follows.
    pub has_result: bool,

    /// Whether a branch follows.
    pub has_branch: bool,

    /// Whether a text follows.
    pub has_text: bool,
}

/// The table of opcodes (section 14), for a macro that writes code from its rows: by the count of
/// operands, an opcode's number, its operation, what follows the operands, and the least and the
/// greatest number of them.
macro_rules! opcodes {
    ($write:ident $value:expr) => {
        $write! {
            $value,
            Two {
                1 JumpIfEqual branching 2 4,
                2 JumpIfLess branching 2 2,
                3 JumpIfGreater branching 2 2,
                4 DecrementCheck branching 2 2,
                5 IncrementCheck branching 2 2,
                6 JumpIfIn branching 2 2,
                7 TestBits branching 2 2,
                8 Or storing 2 2,
                9 And storing 2 2,
                10 TestAttribute branching 2 2,
                11 SetAttribute plain 2 2,
                12 ClearAttribute plain 2 2,
                13 Store plain 2 2,
                14 InsertObject plain 2 2,
                15 LoadWord storing 2 2,
                16 LoadByte storing 2 2,
                17 GetProperty storing 2 2,
                18 GetPropertyAddress storing 2 2,
                19 GetNextProperty storing 2 2,
                20 Add storing 2 2,
                21 Sub storing 2 2,
                22 Mul storing 2 2,
                23 Div storing 2 2,
                24 Mod storing 2 2,
                25 Call2s storing 2 2,
                26 Call2n plain 2 2,
            }
            One {
                0 JumpIfZero branching 1 1,
                1 GetSibling finding 1 1,
                2 GetChild finding 1 1,
                3 GetParent storing 1 1,
                4 GetPropertyLength storing 1 1,
                5 Increment plain 1 1,
                6 Decrement plain 1 1,
                7 PrintAddress plain 1 1,
                8 Call1s storing 1 1,
                9 RemoveObject plain 1 1,
                10 PrintObject plain 1 1,
                11 Return plain 1 1,
                12 Jump plain 1 1,
                13 PrintPacked plain 1 1,
                14 Load storing 1 1,
                15 Call1n plain 1 1,
            }
            Zero {
                0 ReturnTrue plain 0 0,
                1 ReturnFalse plain 0 0,
                2 Print printing 0 0,
                3 PrintReturn printing 0 0,
                4 DoNothing plain 0 0,
                8 ReturnPopped plain 0 0,
                10 Quit plain 0 0,
                11 NewLine plain 0 0,
            }
            Several {
                0 CallVs storing 1 4,
                1 StoreWord plain 3 3,
                2 StoreByte plain 3 3,
                3 PutProperty plain 3 3,
                4 Read storing 2 2,
                5 PrintCharacter plain 1 1,
                6 PrintNumber plain 1 1,
                8 Push plain 1 1,
                9 Pull plain 1 1,
                12 CallVs2 storing 1 8,
                24 Not storing 1 1,
                25 CallVn plain 1 4,
                26 CallVn2 plain 1 8,
                31 CheckArgumentCount branching 1 1,
            }
        }
    };
}

/// The row of an operation.
macro_rules! row_in {
    ($operation:expr, $($count:ident {
        $($number:literal $name:ident $kind:ident $least:literal $most:literal,)*
    })*) => {
        match $operation {
            $($(Operation::$name => $kind(OperandCount::$count, $number, $least, $most),)*)*
        }
    };
}

/// The operation of these rows that has a number, where there is one.
macro_rules! numbered {
    ($value:expr, $($number:literal $name:ident $kind:ident $least:literal $most:literal,)*) => {
        match $value {
            $($number => Some(Operation::$name),)*
            _ => None,
        }
    };
}

/// The operation with two operands that has a number.
macro_rules! two_in {
    ($number:expr, Two { $($row:tt)* } One { $($a:tt)* } Zero { $($b:tt)* } Several { $($c:tt)* }) => {
        numbered!($number, $($row)*)
    };
}

/// The operation with one operand that has a number.
macro_rules! one_in {
    ($number:expr, Two { $($a:tt)* } One { $($row:tt)* } Zero { $($b:tt)* } Several { $($c:tt)* }) => {
        numbered!($number, $($row)*)
    };
}

/// The operation without operands that has a number.
macro_rules! zero_in {
    ($number:expr, Two { $($a:tt)* } One { $($b:tt)* } Zero { $($row:tt)* } Several { $($c:tt)* }) => {
        numbered!($number, $($row)*)
    };
}

/// The operation with any number of operands that has a number.
macro_rules! several_in {
    ($number:expr, Two { $($a:tt)* } One { $($b:tt)* } Zero { $($c:tt)* } Several { $($row:tt)* }) => {
        numbered!($number, $($row)*)
    };
}

impl Operation {
    /// The operation's row of the table.
    #[inline(always)]
    pub fn row(self) -> OpcodeRow
        ensures { result ≡ row_of self }
    {
        opcodes!(row_in self)
    }

    /// The count of operands by which the operation's opcode is numbered.
    #[inline(always)]
    pub fn operand_count(self) -> OperandCount
        ensures { result ≡ count_of self }
    {
        self.row().count
    }

    /// The number of the operation's opcode, among those of its count.
    #[inline(always)]
    pub fn number(self) -> u8
        ensures number { result ≡ number_of self }
        ensures small { result < 32 }
    {
        self.row().number
    }

    /// The least number of operands that the operation takes.
    #[inline(always)]
    pub fn least_operands(self) -> usize
        ensures { result ≡ table.least_operands self }
    {
        self.row().least_operands
    }

    /// The greatest number of operands that the operation takes.
    #[inline(always)]
    pub fn most_operands(self) -> usize
        ensures { result ≡ table.most_operands self }
    {
        self.row().most_operands
    }

    /// Whether the operation stores a result.
    #[inline(always)]
    pub fn has_result(self) -> bool
        ensures { result ≡ table.has_result self }
    {
        self.row().has_result
    }

    /// Whether the operation branches.
    #[inline(always)]
    pub fn has_branch(self) -> bool
        ensures { result ≡ table.has_branch self }
    {
        self.row().has_branch
    }

    /// Whether the operation prints the text that follows it.
    #[inline(always)]
    pub fn has_text(self) -> bool
        ensures { result ≡ table.has_text self }
    {
        self.row().has_text
    }

    /// Whether the operation has a second byte of operand types, so up to eight operands (section
    /// 4.4.3.1).
    #[inline(always)]
    pub fn has_more_types(self) -> bool
        ensures { result ≡ table.has_more_types self }
    {
        4 < self.row().most_operands
    }

    /// The operation with two operands that has a number, where there is one.
    #[inline]
    pub fn two_operand(number: u8) -> Option<Operation>
        ensures same { result ≡ table.two_operand number }
        ensures count { IfSome result (λ operation. count_of operation ≡ counts.Two) }
    {
        opcodes!(two_in number)
    }

    /// The operation with one operand that has a number, where there is one.
    #[inline]
    pub fn one_operand(number: u8) -> Option<Operation>
        ensures same { result ≡ table.one_operand number }
        ensures count { IfSome result (λ operation. count_of operation ≡ counts.One) }
    {
        opcodes!(one_in number)
    }

    /// The operation without operands that has a number, where there is one.
    #[inline]
    pub fn no_operand(number: u8) -> Option<Operation>
        ensures same { result ≡ table.no_operand number }
        ensures count { IfSome result (λ operation. count_of operation ≡ counts.Zero) }
    {
        opcodes!(zero_in number)
    }

    /// The operation with any number of operands that has a number, where there is one.
    #[inline]
    pub fn several_operand(number: u8) -> Option<Operation>
        ensures same { result ≡ table.several_operand number }
        ensures count { IfSome result (λ operation. count_of operation ≡ counts.Several) }
    {
        opcodes!(several_in number)
    }
}

/// A row with nothing behind the operands.
#[inline(always)]
fn plain(count: OperandCount, number: u8, least_operands: usize, most_operands: usize) -> OpcodeRow
    ensures { result ≡ table.plain count number least_operands most_operands }
{
    OpcodeRow {
        count,
        number,
        least_operands,
        most_operands,
        has_result: false,
        has_branch: false,
        has_text: false,
    }
}

/// A row with a result.
#[inline(always)]
fn storing(
    count: OperandCount,
    number: u8,
    least_operands: usize,
    most_operands: usize,
) -> OpcodeRow
    ensures { result ≡ table.storing count number least_operands most_operands }
{
    OpcodeRow {
        has_result: true,
        ..plain(count, number, least_operands, most_operands)
    }
}

/// A row with a branch.
#[inline(always)]
fn branching(
    count: OperandCount,
    number: u8,
    least_operands: usize,
    most_operands: usize,
) -> OpcodeRow
    ensures { result ≡ table.branching count number least_operands most_operands }
{
    OpcodeRow {
        has_branch: true,
        ..plain(count, number, least_operands, most_operands)
    }
}

/// A row with a result and a branch.
#[inline(always)]
fn finding(
    count: OperandCount,
    number: u8,
    least_operands: usize,
    most_operands: usize,
) -> OpcodeRow
    ensures { result ≡ table.finding count number least_operands most_operands }
{
    OpcodeRow {
        has_result: true,
        ..branching(count, number, least_operands, most_operands)
    }
}

/// A row with a text.
#[inline(always)]
fn printing(
    count: OperandCount,
    number: u8,
    least_operands: usize,
    most_operands: usize,
) -> OpcodeRow
    ensures { result ≡ table.printing count number least_operands most_operands }
{
    OpcodeRow {
        has_text: true,
        ..plain(count, number, least_operands, most_operands)
    }
}
