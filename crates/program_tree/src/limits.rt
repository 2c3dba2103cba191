//! Limits of programs and of their text.

/// The most steps of a window.
pub const LONGEST_WINDOW: u32 = 3;

/// The most windows of a program text.
pub const MOST_WINDOWS: usize = 64;

/// The most nodes of a program text.
pub const MOST_NODES: usize = 65_536;

/// The most states of a program text.
pub const MOST_STATES: usize = 64;
