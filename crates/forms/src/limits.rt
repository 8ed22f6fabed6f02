// The limits of documents 01 and 02, each once. The definitions have the same numbers in specs/Limits.antt.

// "A site has 1 to 16 histories, numbered from 0."
pub const HISTORIES: usize = 16;

// "At most 64 operations are live (waiting redo lines and operations not yet stable)."
pub const LIVE: usize = 64;

// "An operation has a 64-bit id and 1 to 4 updates, each in another history."
pub const UPDATES: usize = 4;

// "unreadable line, or above 1,024 bytes without its end"
pub const LINE_BYTES: usize = 1024;

// 02 (c): "A profile becomes 64 bits and parts run 0 to 7": how many parts a profile has, a byte each.
pub const PARTS: u64 = 8;

// 02 (c): "A did line has at most 312 bytes", its end among them.
pub const DID_BYTES: usize = 312;

// 02 (h): "A base line may have 1,074 bytes with its end."
pub const BASE_BYTES: usize = 1074;

// 02 (h): the N of a base line is refused above 2^63.
pub const BASE_TOP: u64 = 9223372036854775808;

// "a log buffer at most 65,536"
pub const LOG_BYTES: usize = 65536;

// 02 (j): "W is chosen from 1 to 1,024".
pub const WINDOW: u64 = 1024;

// 02 (e): "a 65th record 10"
pub const RECORDS: usize = 64;

// What the longest reply has, its end among them: it has two lists of 64 numbers.
pub const REPLY_BYTES: usize = 2741;
