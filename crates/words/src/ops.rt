// The operations of words by name, as `specs/Ops` numbers them.
// Numbers and no enums: to make an enum of a field that was packed takes a test, and a run makes no test that the rules do not name.

// ---- expressions: a number, a pair of offset 0; conversions; reads, the last one of an int through DYNAMIC; a pointer sum; then the nine operators

pub const NUMBER: u64 = 0;

pub const PAIR: u64 = 1;

pub const TO_INT: u64 = 2;

pub const TO_PAIR: u64 = 3;

pub const TO_SAFE: u64 = 4;

pub const READ_SAFE: u64 = 5;

pub const READ_SEQ: u64 = 6;

pub const READ_DYNAMIC: u64 = 7;

pub const READ_INT: u64 = 8;

pub const SUM: u64 = 9;

pub const OPERATORS: u64 = 10;

// ---- commands: their tags

pub const SKIP: u64 = 0;

pub const THEN: u64 = 1;

pub const STORE: u64 = 2;

pub const IF: u64 = 3;

pub const WHILE: u64 = 4;

// ---- a store's access, in c

pub const BY_SAFE: u32 = 0;

pub const BY_SEQ: u32 = 1;

pub const BY_DYNAMIC: u32 = 2;

// ---- what a store keeps, in d: the last is an int as a pair of home 0

pub const KEEP_INT: u32 = 0;

pub const KEEP_PAIR: u32 = 1;

pub const KEEP_SAFE: u32 = 2;

pub const KEEP_INT_PAIR: u32 = 3;
