//! The table of opcodes (Z-Machine Standards Document 1.1, section 14): a row for each opcode of
//! versions 1 to 8, but for those of version 6 alone.

ghost use Rattle.std.specs.Prelude.{◌≡◌, ◌≤◌, None, IfSome, is_some};
ghost use Rattle.zcore.specs.Operations as profile;
ghost use Rattle.zcore_standard.specs.Operations as table;
ghost use Rattle.zcore_standard.specs.Rows.{newest, said_by, said_in, says, with_row};
ghost use Rattle.zcore_standard.specs.OlderOpcodes.{action_in, as_older, older_by, older_in};
ghost use Rattle.zcore_standard.specs.declared.opcode.Numbering.TheVariants as numberings;

use crate::opcode::{Numbering, Opcode};
use crate::operations::{OlderOperation, StandardOperation};
use zcore::{OpcodeRow, OperandCount, Operation};

/// The first version.
const FIRST: u8 = 1;

/// The last version that has the older opcodes.
const LAST_OLDER: u8 = 4;

/// The last version.
const LAST: u8 = 8;

/// A row of the table.
#[derive(Clone, Copy)]
pub struct Row {
    /// The opcode's name.
    pub name: &'static str,

    /// The first version that has it.
    pub since: u8,

    /// How many operands it takes, and what follows them.
    pub shape: OpcodeRow,

    /// Where the machine goes on after it.
    pub flow: Flow,

    /// What it does.
    pub action: Action,
}

/// What an opcode does.
#[derive(Clone, Copy)]
pub enum Action {
    /// An operation of the profile.
    Profile(Operation),

    /// An operation that the profile does not have.
    Standard(StandardOperation),

    /// An operation of versions up to 4 only.
    Older(OlderOperation),
}

/// Where the machine goes on after an instruction.
#[derive(Clone, Copy)]
pub enum Flow {
    /// With the next one.
    Next,

    /// With none that its bytes name: it returns, begins again or ends.
    Nowhere,

    /// With the one to which it jumps.
    Jump,

    /// With a routine, and then with the next one.
    Call,

    /// With the one after its text.
    Text,

    /// With none, after its text.
    LastText,
}

impl Flow {
    /// Whether the next instruction is reached in no other way than by a branch.
    pub fn is_last(self) -> bool {
        matches!(self, Flow::Nowhere | Flow::LastText | Flow::Jump)
    }
}

/// The table: the opcodes by how they are numbered, with their number, their name, the first
/// version that has them and all up to 8 have, and what they do. Of those that the profile has
/// `zcore` knows the operands and what follows them. Of the others these columns say it: what
/// follows the operands, the least and the greatest number of them.
macro_rules! opcodes {
    (Two $then:ident $number:expr) => {
        $then! {
            $number, Two,
            profile {
                1 "je" 1 JumpIfEqual Next,
                2 "jl" 1 JumpIfLess Next,
                3 "jg" 1 JumpIfGreater Next,
                4 "dec_chk" 1 DecrementCheck Next,
                5 "inc_chk" 1 IncrementCheck Next,
                6 "jin" 1 JumpIfIn Next,
                7 "test" 1 TestBits Next,
                8 "or" 1 Or Next,
                9 "and" 1 And Next,
                10 "test_attr" 1 TestAttribute Next,
                11 "set_attr" 1 SetAttribute Next,
                12 "clear_attr" 1 ClearAttribute Next,
                13 "store" 1 Store Next,
                14 "insert_obj" 1 InsertObject Next,
                15 "loadw" 1 LoadWord Next,
                16 "loadb" 1 LoadByte Next,
                17 "get_prop" 1 GetProperty Next,
                18 "get_prop_addr" 1 GetPropertyAddress Next,
                19 "get_next_prop" 1 GetNextProperty Next,
                20 "add" 1 Add Next,
                21 "sub" 1 Sub Next,
                22 "mul" 1 Mul Next,
                23 "div" 1 Div Next,
                24 "mod" 1 Mod Next,
                25 "call_2s" 4 Call2s Call,
                26 "call_2n" 5 Call2n Call,
            }
            standard {
                27 "set_colour" 5 plain 2 2 SetColour Next,
                28 "throw" 5 plain 2 2 Throw Nowhere,
            }
        }
    };
    (One $then:ident $number:expr) => {
        $then! {
            $number, One,
            profile {
                0 "jz" 1 JumpIfZero Next,
                1 "get_sibling" 1 GetSibling Next,
                2 "get_child" 1 GetChild Next,
                3 "get_parent" 1 GetParent Next,
                4 "get_prop_len" 1 GetPropertyLength Next,
                5 "inc" 1 Increment Next,
                6 "dec" 1 Decrement Next,
                7 "print_addr" 1 PrintAddress Next,
                8 "call_1s" 4 Call1s Call,
                9 "remove_obj" 1 RemoveObject Next,
                10 "print_obj" 1 PrintObject Next,
                11 "ret" 1 Return Nowhere,
                12 "jump" 1 Jump Jump,
                13 "print_paddr" 1 PrintPacked Next,
                14 "load" 1 Load Next,
                15 "call_1n" 5 Call1n Call,
            }
            standard {}
        }
    };
    (Zero $then:ident $number:expr) => {
        $then! {
            $number, Zero,
            profile {
                0 "rtrue" 1 ReturnTrue Nowhere,
                1 "rfalse" 1 ReturnFalse Nowhere,
                2 "print" 1 Print Text,
                3 "print_ret" 1 PrintReturn LastText,
                4 "nop" 1 DoNothing Next,
                8 "ret_popped" 1 ReturnPopped Nowhere,
                10 "quit" 1 Quit Nowhere,
                11 "new_line" 1 NewLine Next,
            }
            standard {
                7 "restart" 1 plain 0 0 Restart Nowhere,
                9 "catch" 5 storing 0 0 Catch Next,
                12 "show_status" 3 plain 0 0 ShowStatus Next,
                13 "verify" 3 branching 0 0 Verify Next,
                15 "piracy" 5 branching 0 0 Piracy Next,
            }
        }
    };
    (Several $then:ident $number:expr) => {
        $then! {
            $number, Several,
            profile {
                0 "call_vs" 1 CallVs Call,
                1 "storew" 1 StoreWord Next,
                2 "storeb" 1 StoreByte Next,
                3 "put_prop" 1 PutProperty Next,
                5 "print_char" 1 PrintCharacter Next,
                6 "print_num" 1 PrintNumber Next,
                8 "push" 1 Push Next,
                9 "pull" 1 Pull Next,
                12 "call_vs2" 4 CallVs2 Call,
                24 "not" 5 Not Next,
                25 "call_vn" 5 CallVn Call,
                26 "call_vn2" 5 CallVn2 Call,
                31 "check_arg_count" 5 CheckArgumentCount Next,
            }
            standard {
                4 "aread" 5 storing 1 4 Read Next,
                7 "random" 1 storing 1 1 Random Next,
                10 "split_window" 3 plain 1 1 SplitWindow Next,
                11 "set_window" 3 plain 1 1 SetWindow Next,
                13 "erase_window" 4 plain 1 1 EraseWindow Next,
                14 "erase_line" 4 plain 1 1 EraseLine Next,
                15 "set_cursor" 4 plain 2 2 SetCursor Next,
                16 "get_cursor" 4 plain 1 1 GetCursor Next,
                17 "set_text_style" 4 plain 1 1 SetTextStyle Next,
                18 "buffer_mode" 4 plain 1 1 BufferMode Next,
                19 "output_stream" 3 plain 1 2 OutputStream Next,
                20 "input_stream" 3 plain 1 1 InputStream Next,
                21 "sound_effect" 3 plain 0 4 SoundEffect Next,
                22 "read_char" 4 storing 0 3 ReadChar Next,
                23 "scan_table" 4 finding 3 4 ScanTable Next,
                27 "tokenise" 5 plain 2 4 Tokenise Next,
                28 "encode_text" 5 plain 4 4 EncodeText Next,
                29 "copy_table" 5 plain 3 3 CopyTable Next,
                30 "print_table" 5 plain 2 4 PrintTable Next,
            }
        }
    };
    // Extended opcodes have numbers of their own, counted from 0.
    (Extended $then:ident $number:expr) => {
        $then! {
            $number, Several,
            profile {}
            standard {
                0 "save" 5 storing 0 4 Save Next,
                1 "restore" 5 storing 0 4 Restore Next,
                2 "log_shift" 5 storing 2 2 LogShift Next,
                3 "art_shift" 5 storing 2 2 ArtShift Next,
                4 "set_font" 5 storing 1 1 SetFont Next,
                9 "save_undo" 5 storing 0 0 SaveUndo Next,
                10 "restore_undo" 5 storing 0 0 RestoreUndo Next,
                11 "print_unicode" 5 plain 1 1 PrintUnicode Next,
                12 "check_unicode" 5 storing 1 1 CheckUnicode Next,
                13 "set_true_colour" 5 plain 2 2 SetTrueColour Next,
            }
        }
    };
}

/// The row among these that has a number.
macro_rules! row_of {
    (
        $value:expr, $count:ident,
        profile { $($number:literal $name:literal $since:literal $operation:ident $flow:ident,)* }
        standard { $($n:literal $m:literal $s:literal $follows:ident $least:literal $most:literal
            $o:ident $f:ident,)* }
    ) => {
        match $value {
            $($number => Some(Row {
                name: $name,
                since: $since,
                shape: Operation::$operation.row(),
                flow: Flow::$flow,
                action: Action::Profile(Operation::$operation),
            }),)*
            $($n => Some(Row {
                name: $m,
                since: $s,
                shape: shape!($count $n $follows $least $most),
                flow: Flow::$f,
                action: Action::Standard(StandardOperation::$o),
            }),)*
            _ => None,
        }
    };
}

/// Whether a row with this number is of an operation that the profile does not have.
macro_rules! is_standard {
    (
        $value:expr, $count:ident,
        profile { $($number:literal $name:literal $since:literal $operation:ident $flow:ident,)* }
        standard { $($n:literal $m:literal $s:literal $follows:ident $least:literal $most:literal
            $o:ident $f:ident,)* }
    ) => {
        match $value {
            $($n => true,)*
            _ => false,
        }
    };
}

/// The operation that the profile does not have and whose row among these has a number, and what its
/// opcode takes, without the rest of the row.
macro_rules! standard_of {
    (
        $value:expr, $count:ident,
        profile { $($number:literal $name:literal $since:literal $operation:ident $flow:ident,)* }
        standard { $($n:literal $m:literal $s:literal $follows:ident $least:literal $most:literal
            $o:ident $f:ident,)* }
    ) => {
        match $value {
            $($n => Some((StandardOperation::$o, shape!($count $n $follows $least $most))),)*
            _ => None,
        }
    };
}

/// How many operands an opcode takes, and what follows them.
macro_rules! shape {
    ($count:ident $number:literal $follows:ident $least:literal $most:literal) => {
        OpcodeRow {
            count: OperandCount::$count,
            number: $number,
            least_operands: $least,
            most_operands: $most,
            has_result: has_result!($follows),
            has_branch: has_branch!($follows),
            has_text: false,
        }
    };
}

/// Whether a result follows.
macro_rules! has_result {
    (storing) => { true };
    (finding) => { true };
    ($other:ident) => { false };
}

/// Whether a branch follows.
macro_rules! has_branch {
    (branching) => { true };
    (finding) => { true };
    ($other:ident) => { false };
}

/// The opcodes that did something else up to version 4, and what follows the operands and how many of
/// them there are, up to version 3 and in version 4.
macro_rules! older_opcodes {
    (One $number:expr, $version:expr) => {
        older_row_of! {
            $number, $version, One,
            15 "not" storing 1 1 storing 1 1 Not,
        }
    };
    (Zero $number:expr, $version:expr) => {
        older_row_of! {
            $number, $version, Zero,
            5 "save" branching 0 0 storing 0 0 Save,
            6 "restore" branching 0 0 storing 0 0 Restore,
            9 "pop" plain 0 0 plain 0 0 Pop,
        }
    };
    (Several $number:expr, $version:expr) => {
        older_row_of! {
            $number, $version, Several,
            4 "sread" plain 2 2 plain 2 4 Read,
        }
    };
}

/// The row among these that has a number.
macro_rules! older_row_of {
    (
        $value:expr, $version:expr, $count:ident,
        $($number:literal $name:literal $follows:ident $least:literal $most:literal
            $follows_in_4:ident $least_in_4:literal $most_in_4:literal $operation:ident,)*
    ) => {
        match $value {
            $($number => Some(Row {
                name: $name,
                since: FIRST,
                shape: if $version < LAST_OLDER {
                    shape!($count $number $follows $least $most)
                } else {
                    shape!($count $number $follows_in_4 $least_in_4 $most_in_4)
                },
                flow: Flow::Next,
                action: Action::Older(OlderOperation::$operation),
            }),)*
            _ => None,
        }
    };
}

impl Opcode {
    /// The row that the opcode has in a version of the story file. `None` where that version does not
    /// have it.
    pub fn row(self, version: u8) -> Option<Row>
        ensures since { IfSome result (λ row. row.since ≤ version) }
        ensures said { said_in result ≡ said_by version (action_in version self) }
    {
        match self.last_row() {
            Some(row) if row.since <= version && version <= LAST => Some(row),
            _ => self.older_row(version),
        }
    }

    /// The operation of the profile that has the opcode; none where it is outside the profile.
    pub fn profile(self) -> Option<Operation>
        ensures { result ≡ table.profile_of self }
    {
        match self.numbering {
            Numbering::Two => Operation::two_operand(self.number),
            Numbering::One => Operation::one_operand(self.number),
            Numbering::Zero => Operation::no_operand(self.number),
            Numbering::Several => Operation::several_operand(self.number),
            Numbering::Extended => None,
        }
    }

    /// The operation that the opcode has in versions 5 and 8 and the profile does not have, and how
    /// many operands it takes and what follows them.
    #[inline]
    pub fn standard(self) -> Option<(StandardOperation, OpcodeRow)>
        ensures { result ≡ with_row (table.standard_of self) }
    {
        if self.is_standard() {
            self.standard_row()
        } else {
            None
        }
    }

    /// Whether the profile does not have its operation in versions 5 and 8: asked before what it
    /// takes is looked up, since most steps are of the profile.
    #[inline]
    fn is_standard(self) -> bool
        ensures { result ≡ is_some (table.standard_of self) }
    {
        match self.numbering {
            Numbering::Two => is_two(self.number),
            Numbering::One => false,
            Numbering::Zero => is_zero(self.number),
            Numbering::Several => is_several(self.number),
            Numbering::Extended => is_extended(self.number),
        }
    }

    /// That operation and what the opcode takes, where the profile does not have it.
    fn standard_row(self) -> Option<(StandardOperation, OpcodeRow)>
        ensures { result ≡ with_row (table.standard_of self) }
    {
        match self.numbering {
            Numbering::Two => opcodes!(Two standard_of self.number),
            Numbering::One => None,
            Numbering::Zero => opcodes!(Zero standard_of self.number),
            Numbering::Several => opcodes!(Several standard_of self.number),
            Numbering::Extended => opcodes!(Extended standard_of self.number),
        }
    }

    /// Its row in the versions from 5 on.
    fn last_row(self) -> Option<Row>
        ensures { says result ≡ newest (table.profile_of self) (table.standard_of self) }
    {
        match self.numbering {
            Numbering::Two => two(self.number),
            Numbering::One => one(self.number),
            Numbering::Zero => zero(self.number),
            Numbering::Several => several(self.number),
            Numbering::Extended => extended(self.number),
        }
    }

    /// Its row in a version up to 4, where it did something else.
    fn older_row(self, version: u8) -> Option<Row>
        ensures since { IfSome result (λ row. row.since ≤ version) }
        ensures said { said_in result ≡ said_by version (older_in version self) }
    {
        if version < FIRST || LAST_OLDER < version {
            return None;
        }
        match self.numbering {
            Numbering::One => older_one(self.number, version),
            Numbering::Zero => older_zero(self.number, version),
            Numbering::Several => older_several(self.number, version),
            Numbering::Two | Numbering::Extended => None,
        }
    }
}

/// The row of an opcode with two operands.
fn two(number: u8) -> Option<Row>
    ensures { says result ≡ newest (profile.two_operand number) (table.two_operand number) }
{
    opcodes!(Two row_of number)
}

/// That of one with one operand.
fn one(number: u8) -> Option<Row>
    ensures { says result ≡ newest (profile.one_operand number) None }
{
    opcodes!(One row_of number)
}

/// That of one without operands.
fn zero(number: u8) -> Option<Row>
    ensures { says result ≡ newest (profile.no_operand number) (table.no_operand number) }
{
    opcodes!(Zero row_of number)
}

/// That of one with any number of operands.
fn several(number: u8) -> Option<Row>
    ensures { says result ≡ newest (profile.several_operand number) (table.several_operand number) }
{
    opcodes!(Several row_of number)
}

/// That of an extended one.
fn extended(number: u8) -> Option<Row>
    ensures { says result ≡ newest None (table.extended number) }
{
    opcodes!(Extended row_of number)
}

/// Whether an opcode with two operands is none of the profile.
fn is_two(number: u8) -> bool
    ensures { result ≡ is_some (table.two_operand number) }
{
    opcodes!(Two is_standard number)
}

/// The same of one without operands.
fn is_zero(number: u8) -> bool
    ensures { result ≡ is_some (table.no_operand number) }
{
    opcodes!(Zero is_standard number)
}

/// The same of one with any number of operands.
fn is_several(number: u8) -> bool
    ensures { result ≡ is_some (table.several_operand number) }
{
    opcodes!(Several is_standard number)
}

/// The same of an extended one.
fn is_extended(number: u8) -> bool
    ensures { result ≡ is_some (table.extended number) }
{
    opcodes!(Extended is_standard number)
}

/// The row of an opcode with one operand that did something else up to version 4.
fn older_one(number: u8, version: u8) -> Option<Row>
    requires { 1 ≤ version }
    ensures since { IfSome result (λ row. row.since ≤ version) }
    ensures said { said_in result ≡ said_by version (as_older (older_by numberings.One number)) }
{
    older_opcodes!(One number, version)
}

/// That of one without operands.
fn older_zero(number: u8, version: u8) -> Option<Row>
    requires { 1 ≤ version }
    ensures since { IfSome result (λ row. row.since ≤ version) }
    ensures said { said_in result ≡ said_by version (as_older (older_by numberings.Zero number)) }
{
    older_opcodes!(Zero number, version)
}

/// That of one with any number of operands.
fn older_several(number: u8, version: u8) -> Option<Row>
    requires { 1 ≤ version }
    ensures since { IfSome result (λ row. row.since ≤ version) }
    ensures said { said_in result ≡ said_by version (as_older (older_by numberings.Several number)) }
{
    older_opcodes!(Several number, version)
}
