//! The table of operations, with what each takes and gives.

ghost use Rattle.std.specs.Prelude.{◌≡◌, ◌∷◌, [], reverse, ◌++◌, slice_get, replicate, Some, None, unwrap_or};
ghost use Rattle.lam_operators.specs.Words.{Word};
ghost use Rattle.lam_builtins.specs.Rows.{plain_type, place_taken, places_taken, answer_given};
ghost use Rattle.thread_steps.specs.Ops.{function_takes, region_in, region_takes};
ghost use Rattle.guarded_code.specs.declared.known.ValueKind.TheVariants.{Number, Other};
ghost use Rattle.lam_builtins.specs.Builtins.{row};
ghost use Rattle.guarded_code.specs.Changes.{Only, Trades, anything, kind_of_value, kind_of_type, kind_of_place, kind_of_answer, kind_of_result, constant_kind, result_kind, places_of, change};
ghost use Rattle.code_verify_tables.specs.Seen.{place_seen, few_seen, change_seen};

use crate::places::{FewPlaces, OpChange, Place, repeated};
use guarded_code::{Access, ValueKind};
use lam_builtins::{Answers, Arguments, Builtin, PlainType, Takes};
use lam_bytecode::{Code, CodeUnit, Op, UnitKind};
use lam_value::Value;
use thread_steps::{function_takes, region_takes};

const NUMBER: Place = Place::Only(ValueKind::Number);

const TRUTH: Place = Place::Only(ValueKind::Truth);

const OTHER: Place = Place::Only(ValueKind::Other);

fn kind_of_value(value: &Value) -> ValueKind
    ensures { result ≡ kind_of_value value.now }
{
    match value {
        Value::Int(_) => ValueKind::Number,
        Value::Bool(_) => ValueKind::Truth,
        _ => ValueKind::Other,
    }
}

fn constant_kind(constants: &[Value], number: u32) -> ValueKind
    ensures { result ≡ constant_kind (slice_get constants.now number) }
{
    match constants.get(number as usize) {
        None => ValueKind::Unknown,
        Some(value) => kind_of_value(value),
    }
}

fn result_kind(units: &[CodeUnit], unit: u32) -> ValueKind
    ensures { result ≡ result_kind (slice_get units.now unit) }
{
    match units.get(unit as usize) {
        None => ValueKind::Unknown,
        Some(unit) => kind_of_result(&unit.kind),
    }
}

fn kind_of_result(kind: &UnitKind) -> ValueKind
    ensures { result ≡ kind_of_result kind.now }
{
    match kind {
        UnitKind::Function { gives_int, .. } => {
            if *gives_int {
                ValueKind::Number
            } else {
                ValueKind::Unknown
            }
        }
        UnitKind::Region { .. } => ValueKind::Unknown,
    }
}

fn kind_of_type(of: PlainType) -> ValueKind
    ensures { result ≡ kind_of_type {C = Word} (plain_type of) }
{
    match of {
        PlainType::Int => ValueKind::Number,
        PlainType::Bool => ValueKind::Truth,
        _ => ValueKind::Other,
    }
}

fn place_of(takes: Takes) -> Place
    ensures { place_seen result ≡ Only (kind_of_place {C = Word} (place_taken takes)) }
{
    match takes {
        Takes::Exactly(of) => Place::Only(kind_of_type(of)),
        _ => OTHER,
    }
}

/// The places of a call's arguments, the last one first.
fn places_of(takes: Arguments) -> FewPlaces
    ensures { few_seen result ≡ reverse (places_of {C = Word} (places_taken takes)) }
{
    match takes {
        Arguments::Zero => FewPlaces::Zero,
        Arguments::One(a) => FewPlaces::One(place_of(a)),
        Arguments::Two(a, b) => FewPlaces::Two(place_of(b), place_of(a)),
        Arguments::Three(a, b, c) => FewPlaces::Three(place_of(c), place_of(b), place_of(a)),
    }
}

fn kind_of_answer(answer: Answers) -> ValueKind
    ensures { result ≡ kind_of_answer {C = Word} (answer_given answer) }
{
    match answer {
        Answers::Value(of) => kind_of_type(of),
        _ => ValueKind::Other,
    }
}

/// So few operands are taken.
fn few(takes: FewPlaces, gives: Option<ValueKind>) -> OpChange
    ensures { change_seen result ≡ Trades (few_seen takes) gives }
{
    OpChange::Trades(repeated(Place::Any, 0, takes), gives)
}

/// So many operands are taken, and then a few; none where there is nothing that they belong to.
fn many(count: Option<usize>, takes: FewPlaces, gives: Option<ValueKind>) -> OpChange
    ensures { change_seen result ≡ Trades (anything count ++ few_seen takes) gives }
{
    OpChange::Trades(repeated(Place::Any, count.unwrap_or(0), takes), gives)
}

/// Tags of a label, all of them references.
fn tags(count: usize) -> OpChange
    ensures { change_seen result ≡ Trades (replicate count (Only Other)) (Some Other) }
{
    OpChange::Trades(
        repeated(OTHER, count, FewPlaces::Zero),
        Some(ValueKind::Other),
    )
}

fn called(call: Builtin) -> OpChange
    ensures { change_seen result ≡ Trades (reverse (places_of (row call).signature.takes)) (Some (kind_of_answer (row call).signature.answer)) }
{
    let row = call.row();
    few(places_of(row.takes), Some(kind_of_answer(row.answer)))
}

/// Two numbers are taken, and a value of a kind is given.
fn of_numbers(gives: ValueKind) -> OpChange
    ensures { change_seen result ≡ Trades (Only Number ∷ Only Number ∷ []) (Some gives) }
{
    few(FewPlaces::Two(NUMBER, NUMBER), Some(gives))
}

fn constant(constants: &[Value], number: u32) -> OpChange
    ensures { change_seen result ≡ Trades [] (Some (constant_kind (slice_get constants.now number))) }
{
    few(FewPlaces::Zero, Some(constant_kind(constants, number)))
}

fn called_unit(units: &[CodeUnit], unit: u32) -> OpChange
    ensures { change_seen result ≡ Trades (anything (function_takes (slice_get units.now unit))) (Some (result_kind (slice_get units.now unit))) }
{
    many(
        function_takes(units, unit),
        FewPlaces::Zero,
        Some(result_kind(units, unit)),
    )
}

fn entered(code: &Code, region: u32) -> OpChange
    ensures { change_seen result ≡ Trades (anything (region_takes (region_in region code.now.units)) ++ Only Other ∷ Only Other ∷ []) None }
{
    let captures = match region_takes(code, region) {
        None => None,
        Some(count) => Some(count as usize),
    };
    many(captures, FewPlaces::Two(OTHER, OTHER), None)
}

fn spawned(units: &[CodeUnit], unit: u32) -> OpChange
    ensures { change_seen result ≡ Trades (anything (function_takes (slice_get units.now unit)) ++ Only Other ∷ []) (Some Other) }
{
    many(
        function_takes(units, unit),
        FewPlaces::One(OTHER),
        Some(ValueKind::Other),
    )
}

/// What an operation of a code does.
pub fn change_of(code: &Code, op: Op) -> OpChange
    ensures { change_seen result ≡ change code.now op }
{
    match op {
        Op::Const(number) => constant(code.constants(), number),
        Op::Load(n) => OpChange::Loads(n),
        Op::Store(n) => OpChange::Stores(n),
        Op::Add | Op::Sub | Op::Mul | Op::Div | Op::Rem => of_numbers(ValueKind::Number),
        Op::Lt | Op::Le | Op::Gt | Op::Ge => of_numbers(ValueKind::Truth),
        Op::Neg => few(FewPlaces::One(NUMBER), Some(ValueKind::Number)),
        Op::Not => few(FewPlaces::One(TRUTH), Some(ValueKind::Truth)),
        Op::Eq | Op::Ne => few(
            FewPlaces::Two(Place::Any, Place::Any),
            Some(ValueKind::Truth),
        ),
        Op::Pop | Op::Return => few(FewPlaces::One(Place::Any), None),
        Op::Jump(_) | Op::LeaveRegion => few(FewPlaces::Zero, None),
        Op::JumpIfFalse(_) => few(FewPlaces::One(TRUTH), None),
        Op::Throw => few(FewPlaces::One(NUMBER), None),
        Op::Call(unit) => called_unit(code.units(), unit),
        Op::EnterRegion(region) => entered(code, region),
        Op::Spawn(unit) => spawned(code.units(), unit),
        Op::ReadBarrier(depth) => OpChange::Tests(Access::Reading, depth),
        Op::WriteBarrier(depth) => OpChange::Tests(Access::Writing, depth),
        Op::MakeLabel { secrecy, integrity } => tags(secrecy as usize + integrity as usize),
        Op::System(call) => called(call),
        Op::GetField(_) => few(FewPlaces::One(OTHER), Some(ValueKind::Unknown)),
        Op::PutField(_) => few(FewPlaces::Two(Place::Any, OTHER), None),
        Op::GetElement => few(FewPlaces::Two(NUMBER, OTHER), Some(ValueKind::Unknown)),
        Op::PutElement => few(FewPlaces::Three(Place::Any, NUMBER, OTHER), None),
        Op::NewObject(_) | Op::NoCaps => few(FewPlaces::Zero, Some(ValueKind::Other)),
        Op::NewArray(_) => few(FewPlaces::One(NUMBER), Some(ValueKind::Other)),
        Op::WithPlus | Op::WithMinus => few(FewPlaces::Two(OTHER, OTHER), Some(ValueKind::Other)),
        Op::EnterMonitor | Op::LeaveMonitor => few(FewPlaces::One(OTHER), None),
    }
}
