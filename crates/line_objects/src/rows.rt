//! The rows that tell which fields the object of a line has.
ghost use Rattle.std.specs.Prelude.{◌≡◌, ◌++◌, IfOk, OnOk, map, option_map};
ghost use Rattle.line_objects.specs.Lines.{field_in, fields_by, fits, is_taken, left_by, listed, row_for, rows_of};
ghost use Rattle.line_objects.specs.Held.{field_held, part_held};

use crate::Form;
use crate::lines::{behind_word, first_word, from_word, has_word, is_numeral};
use crate::values::{Field, Value};
use std::alloc::{AllocError, Global};

/// A part of a row, for one word of a line.
#[derive(Clone, Copy, Debug, PartialEq, Eq)]
pub(crate) enum Part {
    /// A word that gives no field.
    Word(&'static str),
    /// A key, and the word that is its value.
    Named(&'static str, &'static str),
    /// A key, and the word that tells whether something is so.
    Told(&'static str, &'static str, bool),
    /// A number.
    Numeral(&'static str),
    /// Any word.
    Any(&'static str),
    /// The rest of the line from its word on.
    Onward(&'static str),
}

/// A part for each word of a line.
pub(crate) type Row = &'static [Part];

const CLIENT: Part = Part::Numeral("client");

const TICKET: Part = Part::Numeral("ticket");

const TAG: Part = Part::Numeral("tag");

const PIPE: Part = Part::Numeral("pipe");

const LENGTH: Part = Part::Numeral("length");

const ADDRESS: Part = Part::Any("address");

const BYTES: Part = Part::Any("bytes");

/// The rows of `replay` and `trace`: replies and refusals of a client, steps, and what a step wrote.
const RUN_ROWS: &[Row] = &[
    &[CLIENT, TICKET, Part::Named("ended", "good"), LENGTH],
    &[CLIENT, TICKET, Part::Named("ended", "good"), LENGTH, BYTES],
    &[
        CLIENT,
        TICKET,
        Part::Named("ended", "check"),
        Part::Any("sense"),
    ],
    &[CLIENT, TICKET, Part::Named("ended", "aborted")],
    &[
        CLIENT,
        TICKET,
        Part::Named("ended", "task"),
        Part::Any("response"),
    ],
    &[CLIENT, Part::Word("refused"), Part::Any("refused")],
    &[Part::Told("idle", "idle", true)],
    &[
        Part::Named("step", "submit"),
        CLIENT,
        TAG,
        TICKET,
        Part::Onward("command"),
    ],
    &[
        Part::Named("step", "task"),
        CLIENT,
        TICKET,
        Part::Onward("function"),
    ],
    &[Part::Named("step", "command")],
    &[Part::Named("step", "engine")],
    &[Part::Named("step", "event")],
    &[Part::Named("step", "data"), TAG],
    &[Part::Named("step", "status"), TAG],
    &[Part::Named("step", "retire"), PIPE, TAG],
    &[Part::Named("step", "take"), CLIENT],
    &[Part::Named("wrote", "unit"), ADDRESS, BYTES],
    &[Part::Named("wrote", "put"), ADDRESS, BYTES],
    &[Part::Named("wrote", "link"), ADDRESS, BYTES],
    &[Part::Named("wrote", "event"), ADDRESS, BYTES],
    &[Part::Named("wrote", "in"), ADDRESS, LENGTH],
    &[Part::Named("wrote", "out"), ADDRESS, LENGTH],
    &[
        Part::Named("wrote", "context"),
        PIPE,
        Part::Numeral("stream"),
        BYTES,
    ],
    &[Part::Named("wrote", "bell"), Part::Any("value")],
];

/// The rows of `audit`.
const AUDIT_ROWS: &[Row] = &[
    &[
        Part::Word("client"),
        CLIENT,
        Part::Word("replies"),
        Part::Numeral("replies"),
        Part::Told("audited", "true", true),
    ],
    &[
        Part::Word("client"),
        CLIENT,
        Part::Word("replies"),
        Part::Numeral("replies"),
        Part::Told("audited", "false", false),
    ],
    &[
        Part::Word("beginning"),
        Part::Word("of"),
        Part::Numeral("beginning"),
        Part::Word("steps"),
    ],
    &[
        Part::Word("torn"),
        Part::Word("at"),
        Part::Word("byte"),
        Part::Numeral("torn"),
    ],
    &[
        Part::Word("head"),
        Part::Any("head"),
        Part::Word("at"),
        Part::Word("step"),
        Part::Numeral("step"),
    ],
];

/// The row of `info`.
const INFO_ROWS: &[Row] = &[&[
    Part::Word("blocks"),
    Part::Numeral("blocks"),
    Part::Word("last"),
    Part::Numeral("last"),
]];

/// The rows of a form; lines of `decode` have none.
#[tactic(auto, unfolding(crate::specs::Lines::rows_of, crate::specs::Lines::run_rows, crate::specs::Lines::audit_rows, crate::specs::Lines::info_rows))]
fn rows_of(form: Form) -> &'static [Row]
    ensures { map (λ row. map part_held row.now) result.now ≡ rows_of form }
{
    match form {
        Form::Run => RUN_ROWS,
        Form::Decode => &[],
        Form::Audit => AUDIT_ROWS,
        Form::Info => INFO_ROWS,
    }
}

/// The first row of a line, if it has one.
pub(crate) fn row_for(form: Form, line: &[u8]) -> Option<Row>
    ensures { option_map (λ row. map part_held row.now) result ≡ row_for (rows_of form) line.now }
{
    let rows = rows_of(form);
    for row in rows {
        if fits(row, line) {
            return Some(*row);
        }
    }
    None
}

/// Whether each part of a row takes its word of a line, and no word is left.
#[tactic(auto, unfolding(crate::specs::Lines::fits))]
fn fits(row: &[Part], line: &[u8]) -> bool
    ensures { result ≡ fits (map part_held row.now) line.now }
{
    match row.split_first() {
        Some((part, rest)) => {
            has_word(line) && part.takes(first_word(line)) && fits(rest, part.left_of(line))
        }
        None => !has_word(line),
    }
}

/// The fields that a row gives of a line.
pub(crate) fn fields_by<'a>(
    alloc: Global,
    row: &[Part],
    line: &'a [u8],
) -> Result<Vec<Field<'a>>, AllocError>
    ensures { IfOk result (λ fields. map field_held fields.items ≡ fields_by (map part_held row.now) line.entry.now) }
{
    let mut fields = Vec::new(alloc);
    push_fields(&mut fields, row, line)?;
    Ok(fields)
}

/// Adds the fields that the parts of a row give of a line.
#[tactic(auto, unfolding(crate::specs::Lines::fields_by))]
fn push_fields<'a>(
    fields: &mut Vec<Field<'a>>,
    row: &[Part],
    line: &'a [u8],
) -> Result<(), AllocError>
    ensures { OnOk result (map field_held fields.new.items ≡ map field_held fields.old.items ++ fields_by (map part_held row.now) line.entry.now) }
{
    match row.split_first() {
        Some((part, rest)) => {
            push_given(fields, part.field_of(line))?;
            push_fields(fields, rest, part.left_of(line))
        }
        None => Ok(()),
    }
}

/// Adds a field that is given.
fn push_given<'a>(fields: &mut Vec<Field<'a>>, given: Option<Field<'a>>) -> Result<(), AllocError>
    ensures { OnOk result (map field_held fields.new.items ≡ map field_held fields.old.items ++ listed (option_map field_held given.entry)) }
{
    if let Some(field) = given {
        fields.push(field)?;
    }
    Ok(())
}

impl Part {
    /// Whether it takes a word.
    fn takes(self, found: &[u8]) -> bool
        ensures { result ≡ is_taken (part_held self) found.now }
    {
        match self {
            Part::Word(word) | Part::Named(_, word) | Part::Told(_, word, _) => {
                found == word.as_bytes()
            }
            Part::Numeral(_) => is_numeral(found),
            Part::Any(_) | Part::Onward(_) => true,
        }
    }

    /// The field that it gives of a line that begins with its word.
    fn field_of<'a>(self, line: &'a [u8]) -> Option<Field<'a>>
        ensures { option_map field_held result ≡ field_in (part_held self) line.entry.now }
    {
        let (key, value) = match self {
            Part::Word(_) => return None,
            Part::Named(key, word) => (key, Value::Text(word.as_bytes())),
            Part::Told(key, _, is) => (key, Value::Truth(is)),
            Part::Numeral(key) => (key, Value::Number(first_word(line))),
            Part::Any(key) => (key, Value::Text(first_word(line))),
            Part::Onward(key) => (key, Value::Text(from_word(line))),
        };
        Some(Field { key, value })
    }

    /// What it leaves of that line for the parts behind it.
    fn left_of<'a>(self, line: &'a [u8]) -> &'a [u8]
        ensures { result.now ≡ left_by (part_held self) line.entry.now }
    {
        match self {
            Part::Onward(_) => &[],
            _ => behind_word(line),
        }
    }
}
