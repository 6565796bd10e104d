// Constants worked out in the job (document 02, No. 3): an expression behind record 46, folded to a constant's kind and bits.
#![tactic(auto)]

ghost use Rattle.std.specs.Prelude.{◌≡◌, true, false, List, ℕ, ◌+◌, ◌-◌, ◌*◌, ◌%◌, ◌^◌, ◌≤◌, ◌<◌, length, drop, get_or, Float, Option};
ghost use Rattle.std.proofs.Math.Option.{some};
ghost use Rattle.std.specs.Float.{binary32, binary64};
ghost use Rattle.std.specs.Float.Ieee.{of_bits, to_bits};
ghost use Rattle.definition.specs.Basics.{good, lookup};
ghost use Rattle.definition.specs.Expression.{Expression, tag_of, expression, read_expression, openings};
ghost use Rattle.definition.specs.Expression as definition;
ghost use Rattle.definition.specs.Value.{folded, constant_in, negative, negated, magnitude, quotient, integer, operation};
ghost use Rattle.refusal.specs.Numbers.{answer_of};
ghost use Rattle.folding.specs.Folding.{opens, kind_of, sign_of, as_whole, WholeWithin, of_both, number_of, of_number, Combines, size_of, bits_at, Steps, Spans, Reads, Folds, bits_of, constant_as, HasKind, TellsKind};

use refusal::Refusal;
use writer::BigEndian;

// A number with its kind. An integer's bits are two's complement; it is None behind a division by zero, which keeps only its kind: an
// expression's kinds are tested before its values.
#[derive(Clone, Copy)]
enum Value {
    Int(Option<u32>),
    Float(f32),
    Long(Option<u64>),
    Double(f64),
}

// A kind, numbered by its tag.
#[derive(Clone, Copy, Debug, PartialEq, Eq)]
enum Number {
    Int = 3,
    Float = 4,
    Long = 5,
    Double = 6,
}

#[derive(Clone, Copy, Debug, PartialEq, Eq)]
enum Sign {
    Plus,
    Minus,
    Times,
    Over,
}

// What a byte of an expression opens.
#[derive(Clone, Copy, Debug, PartialEq, Eq)]
enum Opens {
    Leaf(Number),
    Parts(Sign),
}

// Why an expression has no end.
#[derive(Clone, Copy, Debug, PartialEq, Eq)]
pub enum ExpressionError {
    Cut,
    // A byte that is neither leaf tag nor sign, and the place behind it.
    BadByte(usize),
}

// What one byte of an expression, with a leaf's bits, leads to: the place behind it and how many parts are still to come.
#[derive(Clone, Copy, Debug, PartialEq, Eq)]
struct Step {
    next: usize,
    left: usize,
}

// What an expression comes to, and the place behind it.
#[derive(Clone, Copy)]
struct Folded {
    value: Value,
    next: usize,
}

// A constant's kind as its tag, and its bits.
#[derive(Clone, Copy, Debug, PartialEq, Eq)]
pub struct Constant {
    pub tag: u8,
    pub bits: u64,
}

#[tactic(auto, unfolding(crate::specs::Folding::opens, crate::specs::Folding::kind_of, crate::specs::Folding::sign_of, definition::specs::Basics::lookup, definition::specs::Expression::openings))]
fn opens_of(first: u8) -> Option<Opens>
    ensures { opens result ≡ lookup first openings }
{
    match first {
        3 => Some(Opens::Leaf(Number::Int)),
        4 => Some(Opens::Leaf(Number::Float)),
        5 => Some(Opens::Leaf(Number::Long)),
        6 => Some(Opens::Leaf(Number::Double)),
        b'+' => Some(Opens::Parts(Sign::Plus)),
        b'-' => Some(Opens::Parts(Sign::Minus)),
        b'*' => Some(Opens::Parts(Sign::Times)),
        b'/' => Some(Opens::Parts(Sign::Over)),
        _ => None,
    }
}

// Integers of any width; `last` is the largest number of its bits.

fn sum_of(last: u64, a: u64, b: u64) -> u64
    requires { (a ≤ last) × (b ≤ last) }
    ensures { result ≡ (a + b) % (last + 1) }
{
    if a <= last - b {
        a + b
    } else {
        a - (last - b) - 1
    }
}

fn negation_of(last: u64, a: u64) -> u64
    requires { a ≤ last }
    ensures { result ≡ negated (last + 1) a }
{
    if a == 0 { 0 } else { last - a + 1 }
}

fn difference_of(last: u64, a: u64, b: u64) -> u64
    requires { (a ≤ last) × (b ≤ last) }
    ensures { result ≡ (a + (last + 1 - b)) % (last + 1) }
{
    if b <= a { a - b } else { a + (last - b) + 1 }
}

// By halves: `root` is 2 to half the width's bits.
fn product_of(root: u64, last: u64, a: u64, b: u64) -> u64
    requires { (a ≤ last) × (b ≤ last) × (root * root ≡ last + 1) }
    ensures { result ≡ (a * b) % (last + 1) }
{
    let high = a / root * (b % root) % root;
    let cross = a % root * (b / root) % root;
    let middle = (high + cross) % root;
    sum_of(last, a % root * (b % root), middle * root)
}

fn is_negative(last: u64, a: u64) -> bool
    requires { (a ≤ last) × ((last + 1) % 2 ≡ 0) }
    ensures { result ≡ negative (last + 1) a }
{
    last / 2 < a
}

fn magnitude_of(last: u64, a: u64) -> u64
    requires { (a ≤ last) × ((last + 1) % 2 ≡ 0) }
    ensures { result ≡ magnitude (last + 1) a }
{
    if is_negative(last, a) {
        last - a + 1
    } else {
        a
    }
}

// Cut toward zero.
fn quotient_of(last: u64, a: u64, b: u64) -> u64
    requires { (a ≤ last) × (b ≤ last) × (0 < b) × ((last + 1) % 2 ≡ 0) }
    ensures { result ≡ quotient (last + 1) a b }
{
    let q = magnitude_of(last, a) / magnitude_of(last, b);
    if is_negative(last, a) != is_negative(last, b) {
        negation_of(last, q)
    } else {
        q
    }
}

// None where it divides by zero.
fn whole_of(sign: Sign, root: u64, last: u64, a: u64, b: u64) -> Option<u64>
    requires { (a ≤ last) × (b ≤ last) × (root * root ≡ last + 1) × ((last + 1) % 2 ≡ 0) }
    ensures value { result ≡ as_whole (integer (last + 1) (sign_of sign) a b) }
    ensures within { WholeWithin (last + 1) result }
{
    match sign {
        Sign::Plus => Some(sum_of(last, a, b)),
        Sign::Minus => Some(difference_of(last, a, b)),
        Sign::Times => Some(product_of(root, last, a, b)),
        Sign::Over if b == 0 => None,
        Sign::Over => Some(quotient_of(last, a, b)),
    }
}

// An integer of a kind.
trait Integer: Copy {
    ghost operated: { definition.Sign → Self → Self → Option Self };

    fn operate(sign: Sign, a: Self, b: Self) -> Option<Self>
        ensures { result ≡ operated (sign_of sign) a b };
}

impl Integer for u32 {
    ghost operated = { λ s a b. as_whole (integer (2 ^ 32) s a b) };

    fn operate(sign: Sign, a: u32, b: u32) -> Option<u32> {
        let n = whole_of(sign, 0x1_0000, 0xffff_ffff, a as u64, b as u64)?;
        Some(n as u32)
    }
}

impl Integer for u64 {
    ghost operated = { λ s a b. as_whole (integer (2 ^ 64) s a b) };

    fn operate(sign: Sign, a: u64, b: u64) -> Option<u64> {
        whole_of(sign, 0x1_0000_0000, u64::MAX, a, b)
    }
}

// What two integers come to, of which either may be None.
#[tactic(auto, unfolding(crate::specs::Folding::of_both))]
fn both_of<T: Integer>(sign: Sign, a: Option<T>, b: Option<T>) -> Option<T>
    ensures { result ≡ of_both (T.operated (sign_of sign)) a b }
{
    T::operate(sign, a?, b?)
}

// A binary float. Every pattern of a NaN is one NaN here, and a NaN has one pattern.
trait Real: Copy {
    type Bits;

    ghost of_pattern: { Self.Bits → Self };

    ghost pattern_of: { Self → Self.Bits };

    ghost operated: { definition.Sign → Self → Self → Self };

    fn of_bits(n: Self::Bits) -> Self
        ensures { result ≡ of_pattern n };

    fn bits(self) -> Self::Bits
        ensures { result ≡ pattern_of self };

    fn operate(sign: Sign, a: Self, b: Self) -> Self
        ensures { result ≡ operated (sign_of sign) a b };
}

impl Real for f32 {
    type Bits = u32;

    ghost of_pattern = { of_bits binary32 };

    ghost pattern_of = { to_bits binary32 };

    ghost operated = { λ s a b. operation s binary32 a b };

    fn of_bits(n: u32) -> f32 {
        if 0x7f80_0000 < n % 0x8000_0000 {
            0.0 / 0.0
        } else {
            f32::from_bits(n)
        }
    }

    fn bits(self) -> u32 {
        if self != self {
            0x7fc0_0000
        } else {
            self.to_bits()
        }
    }

    #[tactic(auto, unfolding(crate::specs::Folding::sign_of, definition::specs::Value::operation))]
    fn operate(sign: Sign, a: f32, b: f32) -> f32 {
        match sign {
            Sign::Plus => a + b,
            Sign::Minus => a - b,
            Sign::Times => a * b,
            Sign::Over => a / b,
        }
    }
}

impl Real for f64 {
    type Bits = u64;

    ghost of_pattern = { of_bits binary64 };

    ghost pattern_of = { to_bits binary64 };

    ghost operated = { λ s a b. operation s binary64 a b };

    fn of_bits(n: u64) -> f64 {
        if 0x7ff0_0000_0000_0000 < n % 0x8000_0000_0000_0000 {
            0.0 / 0.0
        } else {
            f64::from_bits(n)
        }
    }

    fn bits(self) -> u64 {
        if self != self {
            0x7ff8_0000_0000_0000
        } else {
            self.to_bits()
        }
    }

    #[tactic(auto, unfolding(crate::specs::Folding::sign_of, definition::specs::Value::operation))]
    fn operate(sign: Sign, a: f64, b: f64) -> f64 {
        match sign {
            Sign::Plus => a + b,
            Sign::Minus => a - b,
            Sign::Times => a * b,
            Sign::Over => a / b,
        }
    }
}

// None if they are of two kinds.
fn combine(sign: Sign, v: Value, w: Value) -> Option<Value>
    ensures { Combines (sign_of sign) v w result }
{
    match (v, w) {
        (Value::Int(a), Value::Int(b)) => Some(Value::Int(both_of(sign, a, b))),
        (Value::Float(a), Value::Float(b)) => Some(Value::Float(f32::operate(sign, a, b))),
        (Value::Long(a), Value::Long(b)) => Some(Value::Long(both_of(sign, a, b))),
        (Value::Double(a), Value::Double(b)) => Some(Value::Double(f64::operate(sign, a, b))),
        _ => None,
    }
}

#[tactic(auto, unfolding(crate::specs::Folding::size_of, crate::specs::Folding::kind_of))]
fn size_of(kind: Number) -> usize
    ensures { result ≡ size_of (kind_of kind) }
{
    match kind {
        Number::Int | Number::Float => 4,
        Number::Long | Number::Double => 8,
    }
}

// The number in a leaf's bits.
#[tactic(auto, unfolding(crate::specs::Folding::of_number, crate::specs::Folding::bits_at, crate::specs::Folding::size_of, crate::specs::Folding::kind_of))]
fn leaf_at(job: &[u8], at: usize, kind: Number) -> Value
    requires { at + size_of (kind_of kind) ≤ length job.now }
    ensures { result ≡ of_number (kind_of kind) (bits_at (kind_of kind) job.now at) }
{
    match kind {
        Number::Int => Value::Int(Some(u32::get(job, at))),
        Number::Float => Value::Float(f32::of_bits(u32::get(job, at))),
        Number::Long => Value::Long(Some(u64::get(job, at))),
        Number::Double => Value::Double(f64::of_bits(u64::get(job, at))),
    }
}

fn token_at(job: &[u8], at: usize, left: usize) -> Result<Step, ExpressionError>
    requires { (at ≤ length job.now) × (0 < left) × (left ≤ at + 1) }
    ensures { Steps job.now at left result }
{
    if job.len() == at {
        return Err(ExpressionError::Cut);
    }
    match opens_of(job[at]) {
        Some(Opens::Parts(_)) => Ok(Step {
            next: at + 1,
            left: left + 1,
        }),
        Some(Opens::Leaf(kind)) => {
            let n = size_of(kind);
            let from = at + 1;
            if job.len() - from < n {
                return Err(ExpressionError::Cut);
            }
            Ok(Step {
                next: from + n,
                left: left - 1,
            })
        }
        None => Err(ExpressionError::BadByte(at + 1)),
    }
}

// Where the expression at a place ends, however deep it is.
pub fn end_of(job: &[u8], start: usize) -> Result<usize, ExpressionError>
    requires { start ≤ length job.now }
    ensures { Spans job.now start result }
{
    let mut at = start;
    let mut left = 1;
    while 0 < left {
        let step = token_at(job, at, left)?;
        at = step.next;
        left = step.left;
    }
    Ok(at)
}

// The expression at a place; None if it is nested more than `deep`, or of mixed kinds.
fn fold(job: &[u8], at: usize, deep: usize) -> Option<Folded>
    requires { Reads job.now at }
    ensures { Folds job.now at deep result }
{
    if deep == 0 {
        return None;
    }
    match opens_of(job[at])? {
        Opens::Leaf(kind) => Some(Folded {
            value: leaf_at(job, at + 1, kind),
            next: at + 1 + size_of(kind),
        }),
        Opens::Parts(sign) => {
            let v = fold(job, at + 1, deep - 1)?;
            let w = fold(job, v.next, deep - 1)?;
            Some(Folded {
                value: combine(sign, v.value, w.value)?,
                next: w.next,
            })
        }
    }
}

// The bits of a leaf.
#[tactic(auto, unfolding(crate::specs::Folding::bits_at, crate::specs::Folding::size_of, crate::specs::Folding::kind_of))]
fn bits_at(job: &[u8], at: usize, kind: Number) -> u64
    requires { at + size_of (kind_of kind) ≤ length job.now }
    ensures { result ≡ bits_at (kind_of kind) job.now at }
{
    match kind {
        Number::Int | Number::Float => u32::get(job, at) as u64,
        Number::Long | Number::Double => u64::get(job, at),
    }
}

#[tactic(auto, unfolding(crate::specs::Folding::number_of, crate::specs::Folding::kind_of))]
fn number_of(v: Value) -> Number
    ensures { kind_of result ≡ number_of v }
{
    match v {
        Value::Int(_) => Number::Int,
        Value::Float(_) => Number::Float,
        Value::Long(_) => Number::Long,
        Value::Double(_) => Number::Double,
    }
}

// None behind a division by zero.
#[tactic(auto, unfolding(crate::specs::Folding::bits_of))]
fn bits_of(v: Value) -> Option<u64>
    ensures { result ≡ bits_of v }
{
    match v {
        Value::Int(n) => Some(n? as u64),
        Value::Float(x) => Some(x.bits() as u64),
        Value::Long(n) => n,
        Value::Double(x) => Some(x.bits()),
    }
}

// The constant that an expression comes to: 22, then 23.
fn folded_at(job: &[u8], at: usize) -> Result<Constant, Refusal>
    requires { Reads job.now at }
    ensures { (fuel : ℕ) (e : Expression) (rest : List ℕ) → expression fuel (drop at job.now) ≡ some (some e, rest) → answer_of result ≡ constant_as (folded (some e)) }
{
    let value = fold(job, at, 32).ok_or(Refusal::BadExpression)?.value;
    let bits = bits_of(value).ok_or(Refusal::DividesByZero)?;
    match opens_of(job[at]).ok_or(Refusal::BadExpression)? {
        // A lone leaf keeps its bits, a NaN's too.
        Opens::Leaf(kind) => Ok(Constant {
            tag: kind as u8,
            bits: bits_at(job, at + 1, kind),
        }),
        Opens::Parts(_) => Ok(Constant {
            tag: number_of(value) as u8,
            bits,
        }),
    }
}

// The constant that the expression at a place comes to: 3 if it is cut, then 22, then 23.
pub fn constant_at(job: &[u8], at: usize) -> Result<Constant, Refusal>
    requires { at ≤ length job.now }
    ensures { answer_of result ≡ constant_as (constant_in (read_expression (drop at job.now))) }
{
    match end_of(job, at) {
        Ok(_) => folded_at(job, at),
        Err(ExpressionError::Cut) => Err(Refusal::Malformed),
        Err(ExpressionError::BadByte(_)) => Err(Refusal::BadExpression),
    }
}

// The tag of the expression at a place, which comes to a constant: that of its first leaf, behind signs.
pub fn tag_at(job: &[u8], start: usize) -> u8
    requires { HasKind job.now start }
    ensures { TellsKind job.now start result }
{
    for at in start..job.len() {
        if job[at] <= 6 {
            return job[at];
        }
    }
    unreachable!()
}
