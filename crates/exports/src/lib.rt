// The questions for programs in other languages; include/petrolyaz.h declares these functions for C.
#![tactic(auto)]

ghost use Rattle.std.specs.Prelude.{◌≡◌};
ghost use Rattle.offered.specs.Offered.{offered_state};
ghost use Rattle.calls.specs.Calls.{identify_of, extract_of, engineer_of};
ghost use Rattle.offered_step.specs.OfferedStep.{limit_step_from};
ghost use Rattle.index_calls.specs.IndexCalls.{search_of};
ghost use Rattle.index_telling.specs.Values.{plain_search};
ghost use Rattle.plain_answers.specs.Values.{of_identity, of_reading, of_engineered, of_state};
ghost use Rattle.telling.specs.Answers.{plain_of, Told};
ghost use Rattle.exports.specs.Exports.{ImportTold, IndexTold, in_order, interface_version};

use calls::engineer::engineer;
use calls::extract::extract;
use calls::identify::identify;
use import::import;
use index_calls::{make, search};
use index_telling::{tell_made, tell_searched};
use offered_step::limit_step_from;
use plain_answers::{
    tell_engineered, tell_extracted, tell_identified, tell_imported, tell_stepped,
};
use telling::deliver::deliver;

// The version of these functions, which PETROLYAZ_VERSION of the header is too.
const VERSION: u32 = 5;

#[unsafe(no_mangle)]
pub extern "C" fn petrolyaz_version() -> u32
    ensures { result ≡ interface_version }
{
    VERSION
}

// Judges all rows of the tables: one cell and one position for each, in table order.
#[unsafe(no_mangle)]
pub extern "C" fn petrolyaz_import<'a>(
    pid: &'a [u8],
    pic: &'a [u8],
    plf: &'a [u8],
    pcf: &'a [u8],
    caf: &'a [u8],
    cap: &'a [u8],
    txf: &'a [u8],
    txp: &'a [u8],
    ocf: &'a [u8],
    ocp: &'a [u8],
    mcf: &'a [u8],
    cells: &mut [u16],
    positions: &mut [u16],
    answer: &mut [i64; 8],
) -> u64
    ensures { ImportTold
        (in_order pid.now pic.now plf.now pcf.now caf.now
        cap.now txf.now txp.now ocf.now ocp.now mcf.now)
        cells.old cells.new positions.old positions.new answer.old answer.new result }
{
    let tables = [pid, pic, plf, pcf, caf, cap, txf, txp, ocf, ocp, mcf];
    deliver(tell_imported(import(tables, cells, positions)), answer)
}

// Which packet it is.
#[unsafe(no_mangle)]
pub extern "C" fn petrolyaz_identify<'a>(
    pid: &'a [u8],
    pic: &'a [u8],
    plf: &'a [u8],
    pcf: &'a [u8],
    caf: &'a [u8],
    cap: &'a [u8],
    txf: &'a [u8],
    txp: &'a [u8],
    ocf: &'a [u8],
    ocp: &'a [u8],
    mcf: &'a [u8],
    packet: &[u8],
    answer: &mut [i64; 8],
) -> u64
    ensures { Told (plain_of of_identity (identify_of
        (in_order pid.now pic.now plf.now pcf.now caf.now
        cap.now txf.now txp.now ocf.now ocp.now mcf.now)
        packet.now)) answer.old answer.new result }
{
    let tables = [pid, pic, plf, pcf, caf, cap, txf, txp, ocf, ocp, mcf];
    deliver(tell_identified(identify(tables, packet)), answer)
}

// Makes the index of the good VALID Y pid rows.
#[unsafe(no_mangle)]
pub extern "C" fn petrolyaz_index<'a>(
    pid: &'a [u8],
    pic: &'a [u8],
    plf: &'a [u8],
    pcf: &'a [u8],
    caf: &'a [u8],
    cap: &'a [u8],
    txf: &'a [u8],
    txp: &'a [u8],
    ocf: &'a [u8],
    ocp: &'a [u8],
    mcf: &'a [u8],
    rows: &mut [u16],
    answer: &mut [i64; 8],
) -> u64
    ensures { IndexTold
        (in_order pid.now pic.now plf.now pcf.now caf.now
        cap.now txf.now txp.now ocf.now ocp.now mcf.now)
        rows.old rows.new answer.old answer.new result }
{
    let tables = [pid, pic, plf, pcf, caf, cap, txf, txp, ocf, ocp, mcf];
    deliver(tell_made(make(tables, rows)), answer)
}

// Which packet it is, by a search of that index.
#[unsafe(no_mangle)]
pub extern "C" fn petrolyaz_search<'a>(
    pid: &'a [u8],
    pic: &'a [u8],
    plf: &'a [u8],
    pcf: &'a [u8],
    caf: &'a [u8],
    cap: &'a [u8],
    txf: &'a [u8],
    txp: &'a [u8],
    ocf: &'a [u8],
    ocp: &'a [u8],
    mcf: &'a [u8],
    packet: &[u8],
    index: &[u16],
    answer: &mut [i64; 8],
) -> u64
    ensures { Told (plain_search (search_of
        (in_order pid.now pic.now plf.now pcf.now caf.now
        cap.now txf.now txp.now ocf.now ocp.now mcf.now)
        index.now packet.now)) answer.old answer.new result }
{
    let tables = [pid, pic, plf, pcf, caf, cap, txf, txp, ocf, ocp, mcf];
    deliver(tell_searched(search(tables, packet, index)), answer)
}

// What a packet says of a parameter: its raw value and whether it is valid.
#[unsafe(no_mangle)]
pub extern "C" fn petrolyaz_extract<'a>(
    pid: &'a [u8],
    pic: &'a [u8],
    plf: &'a [u8],
    pcf: &'a [u8],
    caf: &'a [u8],
    cap: &'a [u8],
    txf: &'a [u8],
    txp: &'a [u8],
    ocf: &'a [u8],
    ocp: &'a [u8],
    mcf: &'a [u8],
    packet: &[u8],
    name: &[u8],
    occurrence: usize,
    answer: &mut [i64; 8],
) -> u64
    ensures { Told (plain_of of_reading (extract_of
        (in_order pid.now pic.now plf.now pcf.now caf.now
        cap.now txf.now txp.now ocf.now ocp.now mcf.now)
        packet.now name.now occurrence)) answer.old answer.new result }
{
    let tables = [pid, pic, plf, pcf, caf, cap, txf, txp, ocf, ocp, mcf];
    deliver(
        tell_extracted(extract(tables, packet, name, occurrence)),
        answer,
    )
}

// Its engineering value.
#[unsafe(no_mangle)]
pub extern "C" fn petrolyaz_engineer<'a>(
    pid: &'a [u8],
    pic: &'a [u8],
    plf: &'a [u8],
    pcf: &'a [u8],
    caf: &'a [u8],
    cap: &'a [u8],
    txf: &'a [u8],
    txp: &'a [u8],
    ocf: &'a [u8],
    ocp: &'a [u8],
    mcf: &'a [u8],
    packet: &[u8],
    name: &[u8],
    occurrence: usize,
    answer: &mut [i64; 8],
) -> u64
    ensures { Told (plain_of of_engineered (engineer_of
        (in_order pid.now pic.now plf.now pcf.now caf.now
        cap.now txf.now txp.now ocf.now ocp.now mcf.now)
        packet.now name.now occurrence)) answer.old answer.new result }
{
    let tables = [pid, pic, plf, pcf, caf, cap, txf, txp, ocf, ocp, mcf];
    deliver(
        tell_engineered(engineer(tables, packet, name, occurrence)),
        answer,
    )
}

// A parameter's limit state after a packet, by its state before: fresh, APID, count, run, announced.
#[unsafe(no_mangle)]
pub extern "C" fn petrolyaz_limit_step<'a>(
    pid: &'a [u8],
    pic: &'a [u8],
    plf: &'a [u8],
    pcf: &'a [u8],
    caf: &'a [u8],
    cap: &'a [u8],
    txf: &'a [u8],
    txp: &'a [u8],
    ocf: &'a [u8],
    ocp: &'a [u8],
    mcf: &'a [u8],
    packet: &[u8],
    name: &[u8],
    state: &[i64; 5],
    answer: &mut [i64; 8],
) -> u64
    ensures { Told (plain_of of_state (limit_step_from
        (in_order pid.now pic.now plf.now pcf.now caf.now
        cap.now txf.now txp.now ocf.now ocp.now mcf.now)
        packet.now name.now (offered_state state.now))) answer.old answer.new result }
{
    let tables = [pid, pic, plf, pcf, caf, cap, txf, txp, ocf, ocp, mcf];
    deliver(
        tell_stepped(limit_step_from(tables, packet, name, state)),
        answer,
    )
}
