// The sizes that plans, dockets and texts keep to.

// A plan has 1 to this many switches.
pub const MAX_SWITCHES: usize = 256;
// A plan has at most this many gates.
pub const MAX_GATES: usize = 256;
// Switches, gates and definitions together are at most this many signals.
pub const MAX_SIGNALS: usize = 1024;
// A clause in a book has at most this many literals.
pub const MAX_LITERALS: usize = 64;
// A text has at most this many bytes.
pub const MAX_TEXT: usize = 32_768;
// A formula nests at most this deep.
pub const MAX_NESTING: usize = 32;
