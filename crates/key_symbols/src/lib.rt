// Keys as symbols: one function for each key that a row can hold or name, and a question can ask for.
#![tactic(auto)]

mod words;

ghost use Rattle.std.specs.Prelude.{◌≡◌, true, false};
ghost use Rattle.verdicts.specs.Key.{packet, structure, identification, location, parameter, curve, point, texts, range, limits, check};
ghost use Rattle.key_symbols.specs.Keyed.{no_symbol, symbol_of};
ghost use Rattle.key_symbols.specs.Bounded.{key_fits, packet_of};

use name_bytes::{CurveName, Name};
use symbols::Symbol;
use units::Spid;
use words::{apid_word, curve_symbol, name_symbol, two_halves, value_symbol};

// What identification goes by. 01: "The five numbers choose the pid row".
#[derive(Clone, Copy)]
pub struct FiveNumbers {
    pub ptype: u32,
    pub stype: u32,
    pub apid: u32,
    pub pi1: u64,
    pub pi2: u64,
}

// The key of a packet, and whether its symbol tells it apart from every other key.
#[derive(Clone, Copy)]
pub struct PacketKey {
    pub fits: bool,
    pub key: Symbol,
}

// The key spaces.
const PACKET: u64 = 0;

const STRUCTURE: u64 = 1;

const IDENTIFICATION: u64 = 2;

const LOCATION: u64 = 3;

const PARAMETER: u64 = 4;

const CURVE: u64 = 5;

const POINT: u64 = 6;

const TEXTS: u64 = 7;

const RANGE: u64 = 8;

const LIMITS: u64 = 9;

const CHECK: u64 = 10;

// The key of a pid row: of a row PI1 is below 2 ^ 32.
pub fn pid_key(ptype: u32, stype: u32, apid: u32, pi1: u32, pi2: u64) -> Symbol
    ensures { (result ≡ symbol_of (packet ptype stype apid pi1 pi2)) × (key_fits (packet ptype stype apid pi1 pi2) ≡ true) }
{
    Symbol {
        space: PACKET,
        a: two_halves(ptype, stype),
        b: two_halves(apid, pi1),
        c: pi2,
    }
}

// The key that a packet asks for. Where PI1 is too large for any row there is no symbol.
pub fn packet_key(n: FiveNumbers) -> PacketKey
    ensures { (result.fits ≡ key_fits (packet_of n)) × (result.fits ≡ true → result.key ≡ symbol_of (packet_of n)) × (result.fits ≡ false → result.key ≡ no_symbol) }
{
    if n.pi1 < 0x1_0000_0000 {
        let key = pid_key(n.ptype, n.stype, n.apid, n.pi1 as u32, n.pi2);
        return PacketKey { fits: true, key };
    }
    let key = Symbol {
        space: 0,
        a: 0,
        b: 0,
        c: 0,
    };
    PacketKey { fits: false, key }
}

pub fn structure_key(spid: Spid) -> Symbol
    ensures { (result ≡ symbol_of (structure spid.0)) × (key_fits (structure spid.0) ≡ true) }
{
    Symbol {
        space: STRUCTURE,
        a: spid.0 as u64,
        b: 0,
        c: 0,
    }
}

pub fn identification_key(ptype: u32, stype: u32, apid: Option<u32>) -> Symbol
    ensures { (result ≡ symbol_of (identification ptype stype apid)) × (key_fits (identification ptype stype apid) ≡ true) }
{
    Symbol {
        space: IDENTIFICATION,
        a: two_halves(ptype, stype),
        b: apid_word(apid),
        c: 0,
    }
}

pub fn location_key(name: Name, spid: Spid) -> Symbol
    ensures { (result ≡ symbol_of (location name spid.0)) × (key_fits (location name spid.0) ≡ true) }
{
    name_symbol(LOCATION, name, spid.0 as u64)
}

pub fn parameter_key(name: Name) -> Symbol
    ensures { (result ≡ symbol_of (parameter name)) × (key_fits (parameter name) ≡ true) }
{
    name_symbol(PARAMETER, name, 0)
}

pub fn curve_key(name: CurveName) -> Symbol
    ensures { (result ≡ symbol_of (curve name)) × (key_fits (curve name) ≡ true) }
{
    curve_symbol(CURVE, name)
}

// A point of a curve. No row has a name so long that it doesn't fit.
pub fn point_key(name: CurveName, x: i64) -> Symbol
    ensures { result ≡ symbol_of (point name x) }
{
    value_symbol(POINT, name, x)
}

pub fn texts_key(name: CurveName) -> Symbol
    ensures { (result ≡ symbol_of (texts name)) × (key_fits (texts name) ≡ true) }
{
    curve_symbol(TEXTS, name)
}

// A range of a list of texts, as a point of a curve.
pub fn range_key(name: CurveName, from: i64) -> Symbol
    ensures { result ≡ symbol_of (range name from) }
{
    value_symbol(RANGE, name, from)
}

pub fn limits_key(name: Name) -> Symbol
    ensures { (result ≡ symbol_of (limits name)) × (key_fits (limits name) ≡ true) }
{
    name_symbol(LIMITS, name, 0)
}

pub fn check_key(name: Name, position: u32) -> Symbol
    ensures { (result ≡ symbol_of (check name position)) × (key_fits (check name position) ≡ true) }
{
    name_symbol(CHECK, name, position as u64)
}
