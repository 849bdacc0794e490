//! The limits of a catalogue, as numbers.

ghost use Rattle.std.specs.Prelude.{◌≡◌};

/// The most variables.
pub const MAX_VARIABLES: usize = 256;

/// The most tables.
pub const MAX_TABLES: usize = 64;

/// The most cells of all tables.
pub const MAX_CELLS: usize = 1_048_576;

/// The most values of a state: room for the variables, and for as many cells of tables as there may be.
pub const MAX_VALUES: usize = 1_048_832;

/// The most transactions.
pub const MAX_TRANSACTIONS: usize = 256;

/// The most standing conditions.
pub const MAX_CONDITIONS: usize = 64;

/// The most parameters of a transaction.
pub const MAX_PARAMETERS: usize = 8;

/// The most tasks: in all, and of one run.
pub const MAX_TASKS: u32 = 65536;

/// The most bytes of a name.
pub const MAX_NAME: usize = 32;

/// The deepest tree of a body, a result or a standing condition, where a node that is written in parentheses counts 1.
pub const MAX_DEPTH: u32 = 31;

/// The largest repeat count.
pub const MAX_REPEAT: u32 = 1000;

/// The largest cost of a transaction with the standing conditions, and of these conditions together.
pub const MAX_COST: u32 = 1_000_000;

/// The limits. It does nothing: its contract says that the constants are these numbers, which are
/// those of the definitions.
pub fn limits_are()
    ensures variables { MAX_VARIABLES ≡ 256 }
    ensures tables { MAX_TABLES ≡ 64 }
    ensures cells { MAX_CELLS ≡ 1048576 }
    ensures values { MAX_VALUES ≡ 1048832 }
    ensures transactions { MAX_TRANSACTIONS ≡ 256 }
    ensures conditions { MAX_CONDITIONS ≡ 64 }
    ensures parameters { MAX_PARAMETERS ≡ 8 }
    ensures tasks { MAX_TASKS ≡ 65536 }
    ensures name { MAX_NAME ≡ 32 }
    ensures depth { MAX_DEPTH ≡ 31 }
    ensures times { MAX_REPEAT ≡ 1000 }
    ensures cost { MAX_COST ≡ 1000000 }
{}
