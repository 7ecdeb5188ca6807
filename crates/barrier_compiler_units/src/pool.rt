//! The numbered constants of a program.

ghost use Rattle.std.specs.Prelude.{◌≡◌, ◌+◌, ◌-◌, ◌<◌, ◌≤◌, ◌^◌, [], ◌∷◌, length, map, take, true, false, cond, Some, IfOk, OnOk, OnErr};
ghost use Rattle.std.specs.BTreeMap.{get};
ghost use Rattle.std.specs.Ordering.{is_eq};
ghost use Rattle.std.specs.List.{AllByRecursion};
ghost use Rattle.lam_bytecode.specs.Codes.{IsConstant};
ghost use Rattle.lam_meaning.specs.Pieces.{is_in, with_constant, place_of, constants_in, numbered};
ghost use Rattle.barrier_compiler_ops.specs.declared.instruction.Constant.{Constant};
ghost use Rattle.barrier_compiler_ops.specs.Views.{constant_value, flat_view};
ghost use Rattle.barrier_compiler_units.specs.Adds.{AreIn};
ghost use Rattle.barrier_compiler_units.specs.Places.{AreKept, Places, constant_cmp};

use barrier_compiler_ops::{Constant, Instruction};
use lam_bytecode::Op;
use lam_value::{ByteText, Value, Values};
use std::alloc::Global;
use std::collections::BTreeMap;
use std::marker::Model;
use want_of_memory::NoMemory;

/// The constants of a program, each once, in order of first use. Seen as their values.
///
/// Each stands twice: as a value, by its number, and as the key at which its number is found, in the order of constants: no
/// choice of constants makes that slow.
#[derive(Drop)]
pub struct Pool {
    values: Values,
    places: BTreeMap<Constant, u64>,
}

impl Model for Pool {
    ghost use Rattle.std.specs.Prelude.{List};
    ghost use Rattle.std.specs.Coded.{coded_list};
    ghost use Rattle.lam_value.specs.declared.values.Value.{Value as Item};
    ghost use Rattle.lam_value.specs.contracts.values.Value as item;

    ghost Value = { List Item };

    ghost coded = { coded_list item.the_row.coded };

    ghost use Rattle.barrier_compiler_units.specs.Places.{AreKept};

    ghost view = { λ p. p.values };

    ghost invariant = { λ p. AreKept p.places p.values };
}

impl Pool {
    /// No constants yet. Takes no memory.
    pub fn new(alloc: Global) -> Pool
        ensures { result ≡ [] }
    {
        Pool {
            values: Values::new(alloc),
            places: BTreeMap::new(alloc),
        }
    }

    /// The number of a constant, which is there from now on.
    fn number(&mut self, constant: &Constant) -> Result<u64, NoMemory>
        ensures pool { OnOk result (self.new ≡ with_constant self.old (constant_value constant.now)) }
        ensures place { IfOk result (λ n. n ≡ place_of self.new (constant_value constant.now)) }
        ensures found { OnOk result (is_in (constant_value constant.now) self.new ≡ true) }
        ensures within { IfOk result (λ n. n < length self.new) }
        ensures room { OnOk result (length self.new ≤ length self.old + 1) }
    {
        place_in(&mut self.values, &mut self.places, constant)
    }

    /// The values of the constants, by number.
    ///
    /// # Errors
    ///
    /// `NoMemory` where memory is refused.
    pub fn values(&self) -> Result<Values, NoMemory>
        ensures values { IfOk result (λ vs. vs ≡ self.now) }
        ensures constants { IfOk result (λ vs. AllByRecursion IsConstant vs) }
    {
        self.values.copy()
    }
}

/// The number of a constant among these, where it is put at the end if it is not there.
fn place_in(
    values: &mut Values,
    places: &mut BTreeMap<Constant, u64>,
    constant: &Constant,
) -> Result<u64, NoMemory>
    requires { AreKept places.old values.old }
    ensures kept { AreKept places.new values.new }
    ensures placed { IfOk result (λ n. Places values.old values.new (constant_value constant.now) n) }
{
    match places.get(constant).copied() {
        Some(place) => Ok(place),
        None => put_last(values, places, constant),
    }
}

/// Puts a constant that is not there yet after the others, and answers its number.
fn put_last(
    values: &mut Values,
    places: &mut BTreeMap<Constant, u64>,
    constant: &Constant,
) -> Result<u64, NoMemory>
    requires kept { AreKept places.old values.old }
    requires new { is_in (constant_value constant.now) values.old ≡ false }
    ensures kept { AreKept places.new values.new }
    ensures placed { IfOk result (λ n. Places values.old values.new (constant_value constant.now) n) }
{
    let alloc = values.allocator();
    let place = values.len();
    let key = copied(constant, alloc)?;
    values.push(value_of(constant, alloc)?)?;
    match put_place(places, key, place) {
        Ok(()) => Ok(place),
        Err(_) => {
            drop_last(values);
            Err(NoMemory)
        }
    }
}

/// Lets a constant have a place. After an error nothing has changed.
fn put_place(
    places: &mut BTreeMap<Constant, u64>,
    constant: Constant,
    place: u64,
) -> Result<(), NoMemory>
    ensures ok { OnOk result ((k : Constant) → get constant_cmp places.new k ≡ cond (is_eq (constant_cmp constant k)) (Some place) (get constant_cmp places.old k)) }
    ensures err { OnErr result (places.new.entries ≡ places.old.entries) }
{
    places.insert(constant, place)?;
    Ok(())
}

fn drop_last(values: &mut Values)
    ensures { values.new ≡ take (length values.old - 1) values.old }
{
    let _ = values.pop();
}

fn copied(constant: &Constant, alloc: Global) -> Result<Constant, NoMemory>
    ensures { IfOk result (λ k. constant_value k ≡ constant_value constant.now) }
{
    match constant {
        Constant::Int(n) => Ok(Constant::Int(*n)),
        Constant::Bool(b) => Ok(Constant::Bool(*b)),
        Constant::Bytes(bytes) => Ok(Constant::Bytes(Vec::from_slice(alloc, bytes)?)),
        Constant::Nothing => Ok(Constant::Nothing),
    }
}

fn value_of(constant: &Constant, alloc: Global) -> Result<Value, NoMemory>
    ensures { IfOk result (λ v. v ≡ constant_value constant.now) }
{
    match constant {
        Constant::Int(n) => Ok(Value::Int(*n)),
        Constant::Bool(b) => Ok(Value::Bool(*b)),
        Constant::Bytes(bytes) => Ok(Value::Bytes(ByteText::from_slice(alloc, bytes)?)),
        Constant::Nothing => Ok(Value::Nothing),
    }
}

/// An instruction with its constant by number.
fn number_one(pool: &mut Pool, one: &Instruction) -> Result<Op, NoMemory>
    requires { length pool.old + 1 < 2 ^ 32 }
    ensures pool { OnOk result (pool.new ≡ constants_in pool.old (flat_view one.now ∷ [])) }
    ensures op { IfOk result (λ o. o ∷ [] ≡ numbered pool.new (flat_view one.now ∷ [])) }
    ensures all_in { OnOk result (AreIn pool.new (flat_view one.now ∷ [])) }
    ensures room { OnOk result (length pool.new ≤ length pool.old + 1) }
{
    match one {
        Instruction::Op(op) => Ok(*op),
        Instruction::Constant(constant) => {
            let number = pool.number(constant)?;
            Ok(Op::Const(number as u32))
        }
    }
}

/// Code with its constants by number.
pub fn number_code(
    pool: &mut Pool,
    code: &[Instruction],
    alloc: Global,
) -> Result<Vec<Op>, NoMemory>
    requires { length pool.old + length code.now < 2 ^ 32 }
    ensures pool { OnOk result (pool.new ≡ constants_in pool.old (map flat_view code.now)) }
    ensures ops { IfOk result (λ ops. ops.items ≡ numbered pool.new (map flat_view code.now)) }
    ensures all_in { OnOk result (AreIn pool.new (map flat_view code.now)) }
    ensures room { OnOk result (length pool.new ≤ length pool.old + length code.now) }
{
    let mut ops = Vec::new(alloc);
    for one in code {
        ops.push(number_one(pool, one)?)?;
    }
    Ok(ops)
}
