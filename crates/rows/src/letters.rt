// The letters of a row, as enums.
ghost use Rattle.std.specs.Prelude.{◌≡◌};
ghost use Rattle.rows.specs.Values.{valid_of, category_of, nature_of, format_of, off_ends_of, limit_value_of, limit_coding_of, check_type_of};

// PID_VALID.
#[derive(Clone, Copy)]
pub enum Valid {
    Yes,
    No,
}

// PCF_CATEG: N, S, T.
#[derive(Clone, Copy)]
pub enum Category {
    Numeric,
    Status,
    Text,
}

// PCF_NATUR: R, D, P, H, S, C.
#[derive(Clone, Copy)]
pub enum Nature {
    Raw,
    Dynamic,
    Expression,
    HardCoded,
    Saved,
    Constant,
}

// CAF_ENGFMT, CAF_RAWFMT and TXF_RAWFMT: I, U, R.
#[derive(Clone, Copy)]
pub enum Format {
    Signed,
    Unsigned,
    Real,
}

// CAF_INTER, for a raw value off the ends of a curve: P, F.
#[derive(Clone, Copy)]
pub enum OffEnds {
    Extrapolate,
    Refuse,
}

// OCF_INTER, the value that is checked: U, C.
#[derive(Clone, Copy)]
pub enum LimitValue {
    Raw,
    Engineering,
}

// OCF_CODIN, how limits are written: R, A, I.
#[derive(Clone, Copy)]
pub enum LimitCoding {
    Real,
    Text,
    Integer,
}

// OCP_TYPE: S, H, D, C, E.
#[derive(Clone, Copy)]
pub enum CheckType {
    Soft,
    Hard,
    Delta,
    Consistency,
    Event,
}

impl From<u8> for Valid {
    ghost from_gives = { λ letter value. value ≡ valid_of letter };

    fn from(letter: u8) -> Valid {
        match letter {
            b'N' => Valid::No,
            _ => Valid::Yes,
        }
    }
}

impl From<u8> for Category {
    ghost from_gives = { λ letter value. value ≡ category_of letter };

    fn from(letter: u8) -> Category {
        match letter {
            b'S' => Category::Status,
            b'T' => Category::Text,
            _ => Category::Numeric,
        }
    }
}

impl From<u8> for Nature {
    ghost from_gives = { λ letter value. value ≡ nature_of letter };

    fn from(letter: u8) -> Nature {
        match letter {
            b'D' => Nature::Dynamic,
            b'P' => Nature::Expression,
            b'H' => Nature::HardCoded,
            b'S' => Nature::Saved,
            b'C' => Nature::Constant,
            _ => Nature::Raw,
        }
    }
}

impl From<u8> for Format {
    ghost from_gives = { λ letter value. value ≡ format_of letter };

    fn from(letter: u8) -> Format {
        match letter {
            b'U' => Format::Unsigned,
            b'R' => Format::Real,
            _ => Format::Signed,
        }
    }
}

impl From<u8> for OffEnds {
    ghost from_gives = { λ letter value. value ≡ off_ends_of letter };

    fn from(letter: u8) -> OffEnds {
        match letter {
            b'P' => OffEnds::Extrapolate,
            _ => OffEnds::Refuse,
        }
    }
}

impl From<u8> for LimitValue {
    ghost from_gives = { λ letter value. value ≡ limit_value_of letter };

    fn from(letter: u8) -> LimitValue {
        match letter {
            b'C' => LimitValue::Engineering,
            _ => LimitValue::Raw,
        }
    }
}

impl From<u8> for LimitCoding {
    ghost from_gives = { λ letter value. value ≡ limit_coding_of letter };

    fn from(letter: u8) -> LimitCoding {
        match letter {
            b'R' => LimitCoding::Real,
            b'A' => LimitCoding::Text,
            _ => LimitCoding::Integer,
        }
    }
}

impl From<u8> for CheckType {
    ghost from_gives = { λ letter value. value ≡ check_type_of letter };

    fn from(letter: u8) -> CheckType {
        match letter {
            b'H' => CheckType::Hard,
            b'D' => CheckType::Delta,
            b'C' => CheckType::Consistency,
            b'E' => CheckType::Event,
            _ => CheckType::Soft,
        }
    }
}
