// The code of an entry that is not the kernel's: which kind of word it is.
pub const COLON: u16 = 201;

pub const CREATED: u16 = 202;

pub const CONSTANT: u16 = 203;

pub const VOCABULARY: u16 = 204;

pub const DOES: u16 = 205;
