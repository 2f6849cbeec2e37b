// Engineering values.
ghost use Rattle.std.specs.Prelude.{◌≡◌, map};
ghost use Rattle.database.specs.Arrays.{database, answers};
ghost use Rattle.engineering.specs.Engineering.{numeric_value, by_category, engineered, said_engineered};

use curve_values::scale::scale_value;
use outcomes::{Refusal, Value};
use polynomial_curves::find_polynomial;
use polynomials::evaluate;
use rows::letters::Category;
use rows::records::{OptionalCurve, PcfRow};
use tables::TABLES;
use texts::{Text, text_value};

// A value, the value of a polynomial, or a text.
#[derive(Clone, Copy)]
pub enum Engineered {
    Is(Value),
    Double(f64),
    Text(Text),
}

// By the polynomial that CURTX names, else along its curve or as it was read.
fn numeric_value(
    tables: [&[u8]; TABLES],
    words: &[u64],
    links: &[u16],
    columns: &[u16],
    curtx: OptionalCurve,
    raw: i64,
) -> Result<Engineered, Refusal>
    ensures { said_engineered result
        ≡ numeric_value (answers (database (map (λ x. x.now) tables.entry) words.now links.now columns.now)) curtx raw }
{
    match find_polynomial(tables, words, links, columns, curtx) {
        Some(p) => Ok(Engineered::Double(evaluate(p, raw))),
        None => {
            let v = scale_value(tables, words, links, columns, curtx, raw)?;
            Ok(Engineered::Is(Value::Number(v)))
        }
    }
}

// By the category and CURTX of a pcf row. 01: "N without CURTX and T answer the raw value".
fn by_category(
    tables: [&[u8]; TABLES],
    words: &[u64],
    links: &[u16],
    columns: &[u16],
    category: Category,
    curtx: OptionalCurve,
    raw: i64,
) -> Result<Engineered, Refusal>
    ensures { said_engineered result
        ≡ by_category (answers (database (map (λ x. x.now) tables.entry) words.now links.now columns.now)) category curtx raw }
{
    match category {
        Category::Numeric => numeric_value(tables, words, links, columns, curtx, raw),
        Category::Status => {
            let name = curtx.name;
            let text = text_value(tables, words, links, columns, name, raw)?;
            Ok(Engineered::Text(text))
        }
        Category::Text => Ok(Engineered::Is(Value::Number(raw))),
    }
}

// The engineering value of a raw one, by the pcf row of its parameter.
pub fn engineer_value(
    tables: [&[u8]; TABLES],
    words: &[u64],
    links: &[u16],
    columns: &[u16],
    row: PcfRow,
    raw: i64,
) -> Result<Engineered, Refusal>
    ensures { said_engineered result
        ≡ engineered (answers (database (map (λ x. x.now) tables.entry) words.now links.now columns.now))
        row raw }
{
    let category = row.categ;
    let curtx = row.curtx;
    by_category(tables, words, links, columns, category, curtx, raw)
}
