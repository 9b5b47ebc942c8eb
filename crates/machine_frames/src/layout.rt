//! Where the parts of a state stand among the cells of a store.

/// How many frame records are in use.
pub const FRAME_COUNT: usize = 0;

/// How many words of the stack are in use (two cells, as all numbers that need more than 16 bits).
pub const HEIGHT: usize = 1;

/// Where the program counter is kept between turns (two cells).
pub const PROGRAM_COUNTER: usize = 3;

/// Whether a line is waited for. The five registers behind it say with what: text buffer, parse
/// buffer, the variable for the result, and where the machine goes on (two cells).
pub const WAITING: usize = 5;

/// The text buffer for the line.
pub const TEXT_BUFFER: usize = 6;

/// The parse buffer for its words, 0 for none.
pub const PARSE_BUFFER: usize = 7;

/// The variable for the line's result.
pub const RESULT_VARIABLE: usize = 8;

/// Where the machine goes on with the line (two cells).
pub const RETURN_ADDRESS: usize = 9;

/// The selected window. This register and the four after it hold what the Standard's machine keeps
/// beside the state between turns; in the profile they are 0.
pub const WINDOW: usize = 11;

/// The bits of the random number generator (two cells).
pub const RANDOM: usize = 12;

/// The number up to which the generator counts, 0 where it does not count.
pub const INTERVAL: usize = 14;

/// The number that comes next in the count.
pub const COUNTER: usize = 15;

/// The first frame record.
pub const RECORDS: usize = 16;

/// The cells of a frame record: its base on the stack (two cells), the address to go on at after it
/// (two cells), the number of locals, the number of arguments, the variable for its result.
pub const RECORD: usize = 7;

/// In a frame record: the address to go on at after the frame (two cells).
pub const RETURN: usize = 2;

/// In a frame record: the number of locals.
pub const LOCAL_COUNT: usize = 4;

/// In a frame record: the number of arguments that the call gave.
pub const ARGUMENT_COUNT: usize = 5;

/// In a frame record: the variable for the frame's result.
pub const RESULT: usize = 6;

/// How many frame records there are: 1,000 calls and the first environment.
pub const RECORD_COUNT: usize = 1_001;

/// The first cell of the stack.
pub const STACK: usize = 7_023;

/// How many words all stacks may hold.
pub const STACK_SIZE: usize = 65_536;

/// The first cell of dynamic memory.
pub const MEMORY: usize = 72_559;

/// In the cell for a result's variable: none.
pub const NO_VARIABLE: u16 = 256;
