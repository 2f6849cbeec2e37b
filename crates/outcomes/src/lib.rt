// What questions answer: a value, or why there is none, with 01's number and place.
#![tactic(auto)]

ghost use Rattle.std.specs.Prelude.{◌≡◌};
ghost use Rattle.outcomes.specs.Refusals.{refusal_number, refusal_place};

use units::{ByteOffset, TableNumber};

// A number; the part of the packet that a string is: where it starts, and how many bytes it has; or the bits of a real
// number, and how many they are.
#[derive(Clone, Copy)]
pub enum Value {
    Number(i64),
    Part(ByteOffset, usize),
    Bits(u64, u32),
}

// Every refusal of a call, in the order of 01's numbers.
#[derive(Clone, Copy)]
pub enum Refusal {
    TableTooLong(TableNumber),
    TooManyRows(TableNumber),
    TooFewCells,
    PacketLength,
    Version,
    LengthField,
    DataField,
    IdentificationLeaves(ByteOffset),
    NoPidRow,
    NoPlfRow,
    NoOccurrence,
    FieldLeaves(ByteOffset),
    StringOffByte(ByteOffset),
    OffCurve,
    OutOfRange,
    NoText,
    NoLimits,
    NoState,
    NotNewer,
    OtherApid,
    NoIndex,
}

// 01's number.
pub fn number_of(refusal: Refusal) -> u8
    ensures { result ≡ refusal_number refusal }
{
    match refusal {
        Refusal::TableTooLong(_) => 1,
        Refusal::TooManyRows(_) => 2,
        Refusal::TooFewCells => 3,
        Refusal::PacketLength => 20,
        Refusal::Version => 21,
        Refusal::LengthField => 22,
        Refusal::DataField => 23,
        Refusal::IdentificationLeaves(_) => 24,
        Refusal::NoPidRow => 25,
        Refusal::NoPlfRow => 26,
        Refusal::NoOccurrence => 27,
        Refusal::FieldLeaves(_) => 28,
        Refusal::StringOffByte(_) => 29,
        Refusal::OffCurve => 30,
        Refusal::OutOfRange => 31,
        Refusal::NoText => 32,
        Refusal::NoLimits => 33,
        Refusal::NoState => 34,
        Refusal::NotNewer => 35,
        Refusal::OtherApid => 36,
        Refusal::NoIndex => 40,
    }
}

// And its place, 0 where there is none.
pub fn place_of(refusal: Refusal) -> usize
    ensures { result ≡ refusal_place refusal }
{
    match refusal {
        Refusal::TableTooLong(table) => table.0,
        Refusal::TooManyRows(table) => table.0,
        Refusal::TooFewCells => 0,
        Refusal::PacketLength => 0,
        Refusal::Version => 0,
        Refusal::LengthField => 0,
        Refusal::DataField => 0,
        Refusal::IdentificationLeaves(byte) => byte.0,
        Refusal::NoPidRow => 0,
        Refusal::NoPlfRow => 0,
        Refusal::NoOccurrence => 0,
        Refusal::FieldLeaves(byte) => byte.0,
        Refusal::StringOffByte(byte) => byte.0,
        Refusal::OffCurve => 0,
        Refusal::OutOfRange => 0,
        Refusal::NoText => 0,
        Refusal::NoLimits => 0,
        Refusal::NoState => 0,
        Refusal::NotNewer => 0,
        Refusal::OtherApid => 0,
        Refusal::NoIndex => 0,
    }
}
