// The tables' columns: for each its width in bytes, 1 where it is mandatory, and its kind.
use column_checks::coefficient::COEFFICIENT;
use column_checks::column::TEXT;
use column_checks::letters::{
    CATEGORY, CHECK_TYPE, FORMAT, LIMIT_CODING, LIMIT_VALUE, NATURE, OFF_ENDS, RADIX, YES_NO,
};
use column_checks::ranges::{
    COORDINATE, FROM_1_TO_16, FROM_1_TO_99, FROM_1_TO_999, FROM_1_TO_9999, FROM_2_TO_100,
    OFFSET_OR_UNUSED, RAW_VALUE, SPID, TO_7, TO_32, TO_99, TO_255, TO_8191, TO_32767, TO_65535,
    TO_2147483647, VALIDITY_VALUE,
};

pub(crate) const PID_WIDTH: [u8; 16] = [3, 3, 5, 10, 10, 10, 64, 8, 10, 2, 1, 8, 1, 1, 1, 17];

pub(crate) const PID_MANDATORY: [u8; 16] = [1, 1, 1, 0, 0, 1, 0, 0, 0, 0, 0, 0, 0, 0, 0, 0];

pub(crate) const PID_KIND: [u8; 16] = [
    TO_255,
    TO_255,
    TO_65535,
    TO_2147483647,
    TO_2147483647,
    SPID,
    TEXT,
    TEXT,
    TEXT,
    TEXT,
    TEXT,
    TEXT,
    YES_NO,
    TEXT,
    TEXT,
    TEXT,
];

pub(crate) const PIC_WIDTH: [u8; 7] = [3, 3, 5, 3, 5, 3, 5];

pub(crate) const PIC_MANDATORY: [u8; 7] = [1, 1, 1, 1, 1, 1, 0];

pub(crate) const PIC_KIND: [u8; 7] = [
    TO_255,
    TO_255,
    OFFSET_OR_UNUSED,
    TO_32,
    OFFSET_OR_UNUSED,
    TO_32,
    TO_65535,
];

pub(crate) const PLF_WIDTH: [u8; 8] = [8, 10, 5, 1, 4, 5, 9, 9];

pub(crate) const PLF_MANDATORY: [u8; 8] = [1, 1, 1, 1, 0, 0, 0, 0];

pub(crate) const PLF_KIND: [u8; 8] = [
    TEXT,
    SPID,
    TO_8191,
    TO_7,
    FROM_1_TO_9999,
    TO_32767,
    TEXT,
    TEXT,
];

pub(crate) const PCF_WIDTH: [u8; 23] = [
    8, 24, 10, 4, 2, 5, 6, 8, 8, 1, 1, 10, 1, 1, 3, 14, 8, 5, 1, 1, 5, 1, 1,
];

pub(crate) const PCF_MANDATORY: [u8; 23] = [
    1, 0, 0, 0, 1, 1, 0, 0, 0, 1, 1, 0, 0, 0, 0, 0, 0, 0, 0, 0, 0, 0, 0,
];

pub(crate) const PCF_KIND: [u8; 23] = [
    TEXT,
    TEXT,
    TEXT,
    TEXT,
    TO_99,
    TO_65535,
    TEXT,
    TEXT,
    TEXT,
    CATEGORY,
    NATURE,
    TEXT,
    OFF_ENDS,
    TEXT,
    TEXT,
    TEXT,
    TEXT,
    VALIDITY_VALUE,
    TEXT,
    TEXT,
    TEXT,
    TEXT,
    TEXT,
];

pub(crate) const CAF_WIDTH: [u8; 8] = [10, 32, 1, 1, 1, 4, 3, 1];

pub(crate) const CAF_MANDATORY: [u8; 8] = [1, 0, 1, 1, 0, 0, 1, 0];

pub(crate) const CAF_KIND: [u8; 8] = [
    TEXT,
    TEXT,
    FORMAT,
    FORMAT,
    RADIX,
    TEXT,
    FROM_2_TO_100,
    OFF_ENDS,
];

pub(crate) const CAP_WIDTH: [u8; 3] = [10, 14, 14];

pub(crate) const CAP_MANDATORY: [u8; 3] = [1, 1, 1];

pub(crate) const CAP_KIND: [u8; 3] = [TEXT, COORDINATE, COORDINATE];

pub(crate) const TXF_WIDTH: [u8; 4] = [10, 32, 1, 3];

pub(crate) const TXF_MANDATORY: [u8; 4] = [1, 0, 1, 1];

pub(crate) const TXF_KIND: [u8; 4] = [TEXT, TEXT, FORMAT, FROM_1_TO_999];

pub(crate) const TXP_WIDTH: [u8; 4] = [10, 14, 14, 14];

pub(crate) const TXP_MANDATORY: [u8; 4] = [1, 1, 1, 1];

pub(crate) const TXP_KIND: [u8; 4] = [TEXT, RAW_VALUE, RAW_VALUE, TEXT];

pub(crate) const OCF_WIDTH: [u8; 5] = [8, 2, 2, 1, 1];

pub(crate) const OCF_MANDATORY: [u8; 5] = [1, 1, 1, 1, 1];

pub(crate) const OCF_KIND: [u8; 5] = [TEXT, FROM_1_TO_99, FROM_1_TO_16, LIMIT_VALUE, LIMIT_CODING];

pub(crate) const OCP_WIDTH: [u8; 7] = [8, 2, 1, 14, 14, 8, 5];

pub(crate) const OCP_MANDATORY: [u8; 7] = [1, 1, 1, 1, 1, 0, 0];

pub(crate) const OCP_KIND: [u8; 7] = [
    TEXT,
    TO_99,
    CHECK_TYPE,
    RAW_VALUE,
    RAW_VALUE,
    TEXT,
    VALIDITY_VALUE,
];

pub(crate) const MCF_WIDTH: [u8; 7] = [10, 32, 14, 14, 14, 14, 14];

pub(crate) const MCF_MANDATORY: [u8; 7] = [1, 0, 1, 0, 0, 0, 0];

pub(crate) const MCF_KIND: [u8; 7] = [
    TEXT,
    TEXT,
    COEFFICIENT,
    COEFFICIENT,
    COEFFICIENT,
    COEFFICIENT,
    COEFFICIENT,
];
