// The keys of a row of each table, as its columns say them, whatever its verdict.
ghost use Rattle.std.specs.Prelude.{◌≡◌};
ghost use Rattle.schemas.specs.declared.Table.TheVariants.{Pid, Pic, Plf, Pcf, Caf, Cap, Txf, Txp, Ocf, Ocp, Mcf};
ghost use Rattle.keys.specs.Held.{ColumnsRead};

use formed::read::{
    read_caf, read_cap, read_mcf, read_ocf, read_ocp, read_pcf, read_pic, read_pid, read_plf,
    read_txf, read_txp,
};
use key_symbols::{
    check_key, curve_key, identification_key, limits_key, location_key, parameter_key, pid_key,
    point_key, range_key, structure_key, texts_key,
};
use manners::marks::{CAF_MARKS, pcf_marks};
use row_keys::columns::{curtx_key, is_engineering, is_yes};
use row_keys::parts::{counter, holder, holding, member, named, naming};
use row_keys::records::{LineKeys, Named};

pub(crate) fn pid_keys(table: &[u8], at: usize) -> LineKeys
    ensures { ColumnsRead Pid table.now at result }
{
    let read = read_pid(table, at);
    let row = read.row;
    let valid = row.valid;
    let yes = is_yes(valid);
    let packet = pid_key(row.ptype, row.stype, row.apid, row.pi1, row.pi2 as u64);
    let structure = structure_key(row.spid);
    let keys = holding(
        read.verdict,
        yes.then_some(packet),
        yes.then_some(structure),
        1,
    );
    LineKeys {
        keys,
        next: read.next,
    }
}

pub(crate) fn pic_keys(table: &[u8], at: usize) -> LineKeys
    ensures { ColumnsRead Pic table.now at result }
{
    let read = read_pic(table, at);
    let row = read.row;
    let apid = row.apid;
    let key = identification_key(row.ptype, row.stype, apid);
    let keys = holder(read.verdict, key, 1);
    LineKeys {
        keys,
        next: read.next,
    }
}

pub(crate) fn plf_keys(table: &[u8], at: usize) -> LineKeys
    ensures { ColumnsRead Plf table.now at result }
{
    let read = read_plf(table, at);
    let row = read.row;
    let name = row.name;
    let spid = row.spid;
    let key = location_key(name, spid);
    let parameter = Named {
        code: 1,
        key: parameter_key(name),
    };
    let structure = Named {
        code: 2,
        key: structure_key(spid),
    };
    let keys = naming(holder(read.verdict, key, 1), parameter, structure);
    LineKeys {
        keys,
        next: read.next,
    }
}

pub(crate) fn pcf_keys(table: &[u8], at: usize) -> LineKeys
    ensures { ColumnsRead Pcf table.now at result }
{
    let read = read_pcf(table, at);
    let row = read.row;
    let name = row.name;
    let chain = row.valid.name;
    let curve = row.curtx;
    let categ = row.categ;
    let valid = named(row.valid.given, 3, parameter_key(chain));
    let curtx = named(row.curtx.given, 4, curtx_key(categ, curve));
    let held = holder(read.verdict, parameter_key(name), pcf_marks(row));
    let keys = naming(held, valid, curtx);
    LineKeys {
        keys,
        next: read.next,
    }
}

pub(crate) fn caf_keys(table: &[u8], at: usize) -> LineKeys
    ensures { ColumnsRead Caf table.now at result }
{
    let read = read_caf(table, at);
    let row = read.row;
    let numbr = row.numbr;
    let keys = counter(read.verdict, curve_key(numbr), 7, row.ncurve, CAF_MARKS);
    LineKeys {
        keys,
        next: read.next,
    }
}

pub(crate) fn cap_keys(table: &[u8], at: usize) -> LineKeys
    ensures { ColumnsRead Cap table.now at result }
{
    let read = read_cap(table, at);
    let row = read.row;
    let numbr = row.numbr;
    let point = point_key(numbr, row.xvals);
    let keys = member(read.verdict, point, curve_key(numbr), 9);
    LineKeys {
        keys,
        next: read.next,
    }
}

pub(crate) fn txf_keys(table: &[u8], at: usize) -> LineKeys
    ensures { ColumnsRead Txf table.now at result }
{
    let read = read_txf(table, at);
    let row = read.row;
    let numbr = row.numbr;
    let keys = counter(read.verdict, texts_key(numbr), 4, row.nalias, 1);
    LineKeys {
        keys,
        next: read.next,
    }
}

pub(crate) fn txp_keys(table: &[u8], at: usize) -> LineKeys
    ensures { ColumnsRead Txp table.now at result }
{
    let read = read_txp(table, at);
    let row = read.row;
    let numbr = row.numbr;
    let range = range_key(numbr, row.from);
    let keys = member(read.verdict, range, texts_key(numbr), 5);
    LineKeys {
        keys,
        next: read.next,
    }
}

pub(crate) fn ocf_keys(table: &[u8], at: usize) -> LineKeys
    ensures { ColumnsRead Ocf table.now at result }
{
    let read = read_ocf(table, at);
    let row = read.row;
    let name = row.name;
    let inter = row.inter;
    let key = parameter_key(name);
    let numeric = Named { code: 6, key };
    let calibrated = named(is_engineering(inter), 7, key);
    let counting = counter(read.verdict, limits_key(name), 3, row.nbool, 1);
    let keys = naming(counting, numeric, calibrated);
    LineKeys {
        keys,
        next: read.next,
    }
}

pub(crate) fn ocp_keys(table: &[u8], at: usize) -> LineKeys
    ensures { ColumnsRead Ocp table.now at result }
{
    let read = read_ocp(table, at);
    let row = read.row;
    let name = row.name;
    let check = row.rlchk.name;
    let counted = member(read.verdict, check_key(name, row.pos), limits_key(name), 5);
    let parameter = named(row.rlchk.given, 8, parameter_key(check));
    let keys = naming(counted, counted.one, parameter);
    LineKeys {
        keys,
        next: read.next,
    }
}

pub(crate) fn mcf_keys(table: &[u8], at: usize) -> LineKeys
    ensures { ColumnsRead Mcf table.now at result }
{
    let read = read_mcf(table, at);
    let ident = read.row;
    let keys = holder(read.verdict, curve_key(ident), 1);
    LineKeys {
        keys,
        next: read.next,
    }
}
