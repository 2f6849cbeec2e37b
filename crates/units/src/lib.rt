// One tuple struct for each kind of number (01: "Row numbers, SPIDs, byte offsets and bit offsets are never mixed").
#![tactic(auto)]

// The number by which people know a table, counted from 1: pid is 1 and ocp 10. Its place in an array is one less.
#[derive(Clone, Copy)]
pub struct TableNumber(pub usize);

// The place of a row in its table, counted from 1.
#[derive(Clone, Copy)]
pub struct RowNumber(pub usize);

// The number that names a packet structure: 1 to 4,294,967,295.
#[derive(Clone, Copy)]
pub struct Spid(pub u32);

// A distance in whole bytes from the first byte of a packet.
#[derive(Clone, Copy)]
pub struct ByteOffset(pub usize);

// A distance in bits from the first bit of a packet.
#[derive(Clone, Copy)]
pub struct BitOffset(pub usize);

// A distance in bytes from the first byte of a table.
#[derive(Clone, Copy)]
pub struct TableOffset(pub usize);
