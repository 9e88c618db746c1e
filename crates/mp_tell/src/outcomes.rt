// The line of each outcome.
ghost use Rattle.std.specs.Prelude.{◌≡◌};
ghost use Rattle.mp_outside.specs.Outside.{Tells};
ghost use Rattle.mp_tell.specs.Lines.{line, refusal_line};

use crate::line::Line;
use crate::names::{
    data_name, decl_name, fault_name, loose_name, macro_name, op_name, place_name, stage_name,
    text_name,
};
use mp_base::{
    DataRefusal, DeclKind, GuessFault, Label, LooseKind, MacroKind, NotSolved, NumberFault,
    Outcome, Refusal, Stage, TextKind,
};
use mp_outside::Sink;

/// Writes the fault line of an outcome, or a part of it where the count of faults rose.
pub fn tell<E: Sink>(err: &mut E, outcome: &Outcome)
    ensures { Tells (E.held err.old) (E.held err.new) (line outcome.now) }
{
    let _ = mp_outside::write_whole(err, line_of(outcome).as_slice());
}

// The line; nothing for Done.
pub(crate) fn line_of(outcome: &Outcome) -> Line
    ensures { result ≡ line outcome.now }
{
    match outcome {
        Outcome::Done => Line::new(),
        Outcome::Refused(refusal) => refusal_line(refusal),
    }
}

// The line of a refusal.
fn refusal_line(refusal: &Refusal) -> Line
    ensures { result ≡ refusal_line refusal.now }
{
    match refusal {
        Refusal::NotSolved(
            NotSolved::StepLimit {
                stage,
                steps,
                equation,
                period,
                bound,
            },
        ) => step_limit_line(*stage, *steps, *equation, *period, *bound),
        Refusal::NotSolved(
            NotSolved::Pivot {
                stage,
                step,
                slot,
                period,
                pivot,
            },
        ) => pivot_line(*stage, *step, slot, *period, *pivot),
        Refusal::Words { word } => words_line(*word),
        Refusal::Absent { name } => absent_line(name),
        Refusal::Macro {
            kind,
            file,
            line: number,
        } => macro_line(*kind, file, *number),
        Refusal::Text { kind, at, token } => text_line(*kind, *at, token),
        Refusal::Declared { kind, name, at } => declared_line(*kind, name, *at),
        Refusal::Data(data) => data_line(data),
        Refusal::Number(fault) => number_line(fault),
        Refusal::Guess(GuessFault::GuessLimit { period, name }) => guess_limit_line(*period, name),
        Refusal::Guess(
            GuessFault::SignUnknown {
                period,
                name,
                low,
                high,
            },
        ) => sign_unknown_line(*period, name, *low, *high),
        Refusal::Guess(GuessFault::EndBinding { name }) => end_binding_line(name),
        Refusal::Loose {
            kind,
            equation,
            period,
            value,
        } => loose_line(*kind, *equation, *period, *value),
        Refusal::ReadFault { count } => read_fault_line(*count),
        Refusal::WriteFault { count } => write_fault_line(*count),
        Refusal::NoMemory => no_memory_line(),
    }
}

fn step_limit_line(stage: Stage, steps: u32, equation: u32, period: u32, bound: i128) -> Line
    ensures { result ≡ refusal_line (Refusal.NotSolved (NotSolved.StepLimit stage steps equation period bound)) }
{
    let mut line = Line::new();
    line.text(b"modpath: 1 StepLimit stage=");
    line.text(stage_name(stage));
    line.text(b" steps=");
    line.number(u64::from(steps));
    line.text(b" equation=");
    line.number(u64::from(equation));
    line.text(b" period=");
    line.number(u64::from(period));
    line.text(b" bound=");
    line.units(bound);
    line.text(b"\n");
    line
}

fn pivot_line(stage: Stage, step: u32, slot: &Label, period: u32, pivot: i128) -> Line
    ensures { result ≡ refusal_line (Refusal.NotSolved (NotSolved.Pivot stage step slot.now period pivot)) }
{
    let mut line = Line::new();
    line.text(b"modpath: 1 Pivot stage=");
    line.text(stage_name(stage));
    line.text(b" step=");
    line.number(u64::from(step));
    line.text(b" slot=");
    line.text(slot.bytes());
    line.text(b" period=");
    line.number(u64::from(period));
    line.text(b" pivot=");
    line.units(pivot);
    line.text(b"\n");
    line
}

fn words_line(word: u32) -> Line
    ensures { result ≡ refusal_line (Refusal.Words word) }
{
    let mut line = Line::new();
    line.text(b"modpath: 2 Words word=");
    line.number(u64::from(word));
    line.text(b"\n");
    line
}

fn absent_line(name: &Label) -> Line
    ensures { result ≡ refusal_line (Refusal.Absent name.now) }
{
    let mut line = Line::new();
    line.text(b"modpath: 3 Absent name=");
    line.text(name.bytes());
    line.text(b"\n");
    line
}

fn macro_line(kind: MacroKind, file: &Label, number: u32) -> Line
    ensures { result ≡ refusal_line (Refusal.Macro kind file.now number) }
{
    let mut line = Line::new();
    line.text(b"modpath: 4 Macro kind=");
    line.text(macro_name(kind));
    line.text(b" file=");
    line.text(file.bytes());
    line.text(b" line=");
    line.number(u64::from(number));
    line.text(b"\n");
    line
}

fn text_line(kind: TextKind, at: u32, token: &Label) -> Line
    ensures { result ≡ refusal_line (Refusal.Text kind at token.now) }
{
    let mut line = Line::new();
    line.text(b"modpath: 5 Text kind=");
    line.text(text_name(kind));
    line.text(b" at=");
    line.number(u64::from(at));
    line.text(b" token=");
    line.text(token.bytes());
    line.text(b"\n");
    line
}

fn declared_line(kind: DeclKind, name: &Label, at: u32) -> Line
    ensures { result ≡ refusal_line (Refusal.Declared kind name.now at) }
{
    let mut line = Line::new();
    line.text(b"modpath: 6 Declared kind=");
    line.text(decl_name(kind));
    line.text(b" name=");
    line.text(name.bytes());
    line.text(b" at=");
    line.number(u64::from(at));
    line.text(b"\n");
    line
}

fn data_line(refused: &DataRefusal) -> Line
    ensures { result ≡ refusal_line (Refusal.Data refused.now) }
{
    let mut line = Line::new();
    line.text(b"modpath: 7 Data kind=");
    line.text(data_name(refused.kind));
    line.text(b" at=");
    line.number(u64::from(refused.at));
    line.text(b" first=");
    line.fraction(refused.first.ratio());
    line.text(b" second=");
    line.fraction(refused.second.ratio());
    line.text(b"\n");
    line
}

fn number_line(fault: &NumberFault) -> Line
    ensures { result ≡ refusal_line (Refusal.Number fault.now) }
{
    let mut line = Line::new();
    line.text(b"modpath: 8 Number kind=");
    line.text(fault_name(fault.kind));
    line.text(b" place=");
    line.text(place_name(fault.place));
    line.text(b" item=");
    line.number(u64::from(fault.item));
    line.text(b" period=");
    line.number(u64::from(fault.period));
    line.text(b" node=");
    line.number(u64::from(fault.node));
    line.text(b" op=");
    line.text(op_name(fault.op));
    line.text(b"\n");
    line
}

fn guess_limit_line(period: u32, name: &Label) -> Line
    ensures { result ≡ refusal_line (Refusal.Guess (GuessFault.GuessLimit period name.now)) }
{
    let mut line = Line::new();
    line.text(b"modpath: 9 GuessLimit period=");
    line.number(u64::from(period));
    line.text(b" name=");
    line.text(name.bytes());
    line.text(b"\n");
    line
}

fn sign_unknown_line(period: u32, name: &Label, low: i128, high: i128) -> Line
    ensures { result ≡ refusal_line (Refusal.Guess (GuessFault.SignUnknown period name.now low high)) }
{
    let mut line = Line::new();
    line.text(b"modpath: 9 SignUnknown period=");
    line.number(u64::from(period));
    line.text(b" name=");
    line.text(name.bytes());
    line.text(b" low=");
    line.units(low);
    line.text(b" high=");
    line.units(high);
    line.text(b"\n");
    line
}

fn end_binding_line(name: &Label) -> Line
    ensures { result ≡ refusal_line (Refusal.Guess (GuessFault.EndBinding name.now)) }
{
    let mut line = Line::new();
    line.text(b"modpath: 9 EndBinding name=");
    line.text(name.bytes());
    line.text(b"\n");
    line
}

fn loose_line(kind: LooseKind, equation: u32, period: u32, value: i128) -> Line
    ensures { result ≡ refusal_line (Refusal.Loose kind equation period value) }
{
    let mut line = Line::new();
    line.text(b"modpath: 10 Loose kind=");
    line.text(loose_name(kind));
    line.text(b" equation=");
    line.number(u64::from(equation));
    line.text(b" period=");
    line.number(u64::from(period));
    line.text(b" value=");
    line.units(value);
    line.text(b"\n");
    line
}

fn read_fault_line(count: u64) -> Line
    ensures { result ≡ refusal_line (Refusal.ReadFault count) }
{
    let mut line = Line::new();
    line.text(b"modpath: 11 ReadFault count=");
    line.number(count);
    line.text(b"\n");
    line
}

fn write_fault_line(count: u64) -> Line
    ensures { result ≡ refusal_line (Refusal.WriteFault count) }
{
    let mut line = Line::new();
    line.text(b"modpath: 12 WriteFault count=");
    line.number(count);
    line.text(b"\n");
    line
}

fn no_memory_line() -> Line
    ensures { result ≡ refusal_line Refusal.NoMemory }
{
    let mut line = Line::new();
    line.text(b"modpath: 13 NoMemory\n");
    line
}
