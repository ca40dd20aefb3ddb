//! The addresses and sizes of a program's memory. They are this project's own: RFC 9669 leaves memory to the platform.

/// The address of the first octet of the stack.
pub const STACK_BASE: u64 = 0x1000_0000;

/// The address of the first octet of the heap.
pub const HEAP_BASE: u64 = 0x2000_0000;

/// The address of the first octet of the window.
pub const WINDOW_BASE: u64 = 0x3000_0000;

/// Octets of the stack.
pub const STACK_SIZE: usize = 512;

/// Octets of the heap.
pub const HEAP_SIZE: usize = 8192;

/// The most octets of a window: the body of the longest BGP message, which has 4,096 octets with a header of 19
/// (RFC 4271, section 4.1).
pub const MAX_WINDOW: usize = 4096 - 19;

/// The address after the stack's last octet.
pub const STACK_END: u64 = STACK_BASE + STACK_SIZE as u64;
