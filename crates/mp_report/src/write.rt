// The records of derivatives.
ghost use Rattle.std.specs.Prelude.{◌≡◌, [], ◌∷◌, ◌++◌, IfOk, OnOk};
ghost use Rattle.csv.specs.Writing.{default_writer, row_text};
ghost use Rattle.mp_derivatives.specs.Records.{fields, header, records_text};
ghost use Rattle.mp_report.specs.Shown.{derivation_of};
ghost use Rattle.mp_report.specs.Written.{IsReady, bytes_written};

use crate::list::{Derivative, Derivatives};
use csv::Writer;
use itoa::Buffer;
use mp_base::{Bytes, NoMemory};
use std::alloc::Global;

/// The text of these derivatives: a line of the columns' names and one for each derivative, as comma-separated values
/// (RFC 4180), with quotes where a field has a comma. The columns are modpath's own.
pub fn write_derivatives(alloc: Global, list: &Derivatives) -> Result<Bytes, NoMemory>
    ensures { IfOk result (λ text. text ≡ records_text list.now) }
{
    let mut writer = Writer::from_writer(Vec::new(alloc));
    write_header(&mut writer)?;
    'turns: for derivative in list.as_slice() {
        write_derivative(&mut writer, derivative)?;
    }
    match writer.into_inner() {
        Ok(text) => Ok(Bytes::from(text)),
        Err(_) => Err(NoMemory),
    }
}

fn write_header(writer: &mut Writer<Vec<u8>>) -> Result<(), NoMemory>
    requires { IsReady writer.old }
    ensures ready { OnOk result (IsReady writer.new) }
    ensures text { OnOk result (bytes_written writer.new ≡ bytes_written writer.old ++ row_text default_writer header) }
{
    write_row(writer, b"equation", b"variable", b"shift", b"derivative")
}

#[tactic(auto, using(mp_solutions::proofs::Digits::decimal_of_any_size, crate::proofs::Digits::whole_of_any_size))]
fn write_derivative(writer: &mut Writer<Vec<u8>>, derivative: &Derivative) -> Result<(), NoMemory>
    requires { IsReady writer.old }
    ensures ready { OnOk result (IsReady writer.new) }
    ensures text { OnOk result (bytes_written writer.new ≡ bytes_written writer.old ++ row_text default_writer (fields (derivation_of derivative.now))) }
{
    let mut equation = Buffer::new();
    let mut shift = Buffer::new();
    let equation = equation.format(derivative.equation).as_bytes();
    let shift = shift.format(derivative.shift).as_bytes();
    write_row(
        writer,
        equation,
        derivative.variable,
        shift,
        derivative.text.as_slice(),
    )
}

// A line with a field for each column. Writing into memory fails for want of memory alone.
fn write_row<'f>(
    writer: &mut Writer<Vec<u8>>,
    equation: &'f [u8],
    variable: &'f [u8],
    shift: &'f [u8],
    text: &'f [u8],
) -> Result<(), NoMemory>
    requires { IsReady writer.old }
    ensures ready { OnOk result (IsReady writer.new) }
    ensures text { OnOk result (bytes_written writer.new ≡ bytes_written writer.old ++ row_text default_writer (equation.now ∷ variable.now ∷ shift.now ∷ text.now ∷ [])) }
{
    match writer.write_fields(&[equation, variable, shift, text]) {
        Ok(()) => Ok(()),
        Err(_) => Err(NoMemory),
    }
}
