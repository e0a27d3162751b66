// Where things lie in the image that code reaches for.

// BASE's cell.
pub const BASE: usize = 32768;

// The line, and the block buffer.
pub const LINE: usize = 128;

pub const BUFFER: usize = 33024;
