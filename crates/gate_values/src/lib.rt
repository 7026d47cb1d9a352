//! The values that signals take, the kinds of gates, and the truth table.
//!
//! A [`Value`] is 0, 1, x (unknown) or z (not driven). The tables are those of the gate primitives of IEEE 1364: a pin with the value z
//! counts as x, and no gate gives z. [`eval_all`] applies the table to the whole list of a gate's pins (`specs/Gates`).
//!
//! The first pins often decide the value: if one pin of an AND is 0, the gate is 0. Two types therefore look at one pin at a time. A
//! [`Look`] keeps up to 64 values that it has seen. An [`Evaluation`] keeps only their result, in two bytes that are copied, for callers
//! that hold very many. [`Kind::decides`] says whether a value ends the look. The one pin of a NOT, BUFF or DFF never decides: such a look
//! ends because all pins are seen.
//!
//! Nothing here allocates or fails. Each call takes constant time, except [`eval_all`] and [`Look::end`], whose time is linear in the
//! number of pins.
//!
//! ```
//! let mut look = Look::new(Kind::And);
//! if look.see(Value::Zero) {
//!     // 0, whatever the other pins are
//!     let value = look.end();
//! }
//! ```
#![tactic(auto)]

ghost use Rattle.std.specs.Prelude.{◌≡◌, ℕ, ◌+◌, ◌<◌, ◌≤◌, IsTrue, List, [], ◌∷◌, ◌++◌, length, take, count_by};
ghost use Rattle.std.specs.List.{list_any};
ghost use Rattle.gate_values.specs.Gates.{gate_value, conjunction, disjunction, parity, decides, is_unary, is_zero, is_one, is_unknown, read, negation};
ghost use Rattle.gate_values.specs.Looks.{Seen, Undecided, Decided, Evaluates};
ghost use Rattle.gate_values.specs.Spelling.{byte_of_value, kind_of_word, value_of_byte, value_of_word};
ghost use Rattle.gate_values.specs.Spelling as spelling;
ghost use Rattle.gate_values.specs.Gates as gates;

use std::marker::Model;

/// A gate has at most so many pins.
const MOST_GATE_PINS: usize = 64;

/// The value of a signal.
#[derive(Clone, Copy, Debug, PartialEq, Eq)]
pub enum Value {
    Zero,
    One,
    X,
    Z,
}

/// The kind of a gate. A `Dff` is a flip-flop: it copies its pin at each edge of its clock.
#[derive(Clone, Copy, Debug, PartialEq, Eq, PartialOrd, Ord)]
pub enum Kind {
    And,
    Nand,
    Or,
    Nor,
    Xor,
    Xnor,
    Not,
    Buff,
    Dff,
}

impl Value {
    /// The value that a byte spells. The letters x and z may be in either case.
    pub fn from_byte(b: u8) -> Option<Value>
        ensures { result ≡ value_of_byte b }
    {
        match b {
            b'0' => Some(Value::Zero),
            b'1' => Some(Value::One),
            b'x' | b'X' => Some(Value::X),
            b'z' | b'Z' => Some(Value::Z),
            _ => None,
        }
    }

    /// The value that a word of one byte spells.
    pub fn from_word(word: &[u8]) -> Option<Value>
        ensures { result ≡ value_of_word word.now }
    {
        match word {
            [b] => Value::from_byte(*b),
            _ => None,
        }
    }

    /// The byte that spells the value, with letters in lower case.
    pub fn byte(self) -> u8
        ensures { result ≡ byte_of_value self }
    {
        match self {
            Value::Zero => b'0',
            Value::One => b'1',
            Value::X => b'x',
            Value::Z => b'z',
        }
    }

    /// The value as a pin sees it: z is x.
    fn read(self) -> Value
        ensures { result ≡ read self }
    {
        match self {
            Value::Z => Value::X,
            other => other,
        }
    }

    fn negation(self) -> Value
        ensures { result ≡ negation self }
    {
        match self {
            Value::Zero => Value::One,
            Value::One => Value::Zero,
            _ => Value::X,
        }
    }

    fn is_zero(self) -> bool
        ensures { result ≡ is_zero self }
    {
        matches!(self, Value::Zero)
    }

    fn is_one(self) -> bool
        ensures { result ≡ is_one self }
    {
        matches!(self, Value::One)
    }

    fn is_unknown(self) -> bool
        ensures { result ≡ is_unknown self }
    {
        matches!(self, Value::X | Value::Z)
    }

    fn and(self, other: Value) -> Value
        ensures { result ≡ conjunction (self ∷ other ∷ []) }
    {
        match (self, other) {
            (Value::Zero, _) | (_, Value::Zero) => Value::Zero,
            (Value::One, Value::One) => Value::One,
            _ => Value::X,
        }
    }

    fn or(self, other: Value) -> Value
        ensures { result ≡ disjunction (self ∷ other ∷ []) }
    {
        match (self, other) {
            (Value::One, _) | (_, Value::One) => Value::One,
            (Value::Zero, Value::Zero) => Value::Zero,
            _ => Value::X,
        }
    }

    fn xor(self, other: Value) -> Value
        ensures { result ≡ parity (self ∷ other ∷ []) }
    {
        match (self, other) {
            (Value::Zero, Value::Zero) | (Value::One, Value::One) => Value::Zero,
            (Value::Zero, Value::One) | (Value::One, Value::Zero) => Value::One,
            _ => Value::X,
        }
    }
}

/// Whether two words are equal up to case.
fn is_spelling(word: &[u8], text: &[u8]) -> bool
    ensures { result ≡ spelling.spells word.now text.now }
{
    word.eq_ignore_ascii_case(text)
}

impl Kind {
    /// The kind that a word names, in either case. `BUF` is a second spelling of `BUFF`.
    pub fn from_word(word: &[u8]) -> Option<Kind>
        ensures { result ≡ kind_of_word word.now }
    {
        if is_spelling(word, b"and") {
            return Some(Kind::And);
        }
        if is_spelling(word, b"nand") {
            return Some(Kind::Nand);
        }
        if is_spelling(word, b"or") {
            return Some(Kind::Or);
        }
        if is_spelling(word, b"nor") {
            return Some(Kind::Nor);
        }
        if is_spelling(word, b"xor") {
            return Some(Kind::Xor);
        }
        if is_spelling(word, b"xnor") {
            return Some(Kind::Xnor);
        }
        if is_spelling(word, b"not") {
            return Some(Kind::Not);
        }
        if is_spelling(word, b"buff") || is_spelling(word, b"buf") {
            return Some(Kind::Buff);
        }
        if is_spelling(word, b"dff") {
            return Some(Kind::Dff);
        }
        None
    }

    /// Whether such a gate has exactly one pin.
    pub fn is_unary(self) -> bool
        ensures { result ≡ gates.is_unary self }
    {
        matches!(self, Kind::Not | Kind::Buff | Kind::Dff)
    }

    /// Whether such a gate may have so many pins: 1 to 64, and one if it is unary.
    pub fn allows(self, pins: usize) -> bool
        ensures { result ≡ gates.allows self pins }
    {
        1 <= pins && pins <= MOST_GATE_PINS && (!self.is_unary() || pins == 1)
    }

    /// Whether a pin with this value decides the gate, whatever its other pins are. No value decides a unary gate.
    pub fn decides(self, value: Value) -> bool
        ensures { result ≡ gates.decides self value }
    {
        match self {
            Kind::And | Kind::Nand => value.is_zero(),
            Kind::Or | Kind::Nor => value.is_one(),
            Kind::Xor | Kind::Xnor => value.is_unknown(),
            Kind::Not | Kind::Buff | Kind::Dff => false,
        }
    }
}

fn any_zero(pins: &[Value]) -> bool
    ensures { result ≡ list_any is_zero pins.now }
{
    pins.iter().any(|v| v.is_zero())
}

fn any_one(pins: &[Value]) -> bool
    ensures { result ≡ list_any is_one pins.now }
{
    pins.iter().any(|v| v.is_one())
}

fn any_unknown(pins: &[Value]) -> bool
    ensures { result ≡ list_any is_unknown pins.now }
{
    pins.iter().any(|v| v.is_unknown())
}

fn ones(pins: &[Value]) -> usize
    ensures { result ≡ count_by is_one pins.now }
{
    pins.iter().filter(|v| v.is_one()).count()
}

fn conjunction(pins: &[Value]) -> Value
    ensures { result ≡ conjunction pins.now }
{
    if any_zero(pins) {
        Value::Zero
    } else if any_unknown(pins) {
        Value::X
    } else {
        Value::One
    }
}

fn disjunction(pins: &[Value]) -> Value
    ensures { result ≡ disjunction pins.now }
{
    if any_one(pins) {
        Value::One
    } else if any_unknown(pins) {
        Value::X
    } else {
        Value::Zero
    }
}

fn parity(pins: &[Value]) -> Value
    ensures { result ≡ parity pins.now }
{
    if any_unknown(pins) {
        Value::X
    } else if ones(pins) % 2 == 1 {
        Value::One
    } else {
        Value::Zero
    }
}

/// The value of a gate from all its pins.
pub fn eval_all(kind: Kind, pins: &[Value]) -> Value
    requires some { 1 ≤ length pins.now }
    requires one { IsTrue (is_unary kind) → length pins.now ≡ 1 }
    ensures { result ≡ gate_value kind pins.now }
{
    match kind {
        Kind::And => conjunction(pins),
        Kind::Nand => conjunction(pins).negation(),
        Kind::Or => disjunction(pins),
        Kind::Nor => disjunction(pins).negation(),
        Kind::Xor => parity(pins),
        Kind::Xnor => parity(pins).negation(),
        Kind::Not => pins[0].negation(),
        Kind::Buff | Kind::Dff => pins[0].read(),
    }
}

/// A look at the pins of a gate, one after another, up to the first that decides. The model is the kind and the values seen.
#[derive(Drop)]
pub struct Look {
    kind: Kind,
    seen: [Value; MOST_GATE_PINS],
    count: usize,
}

impl Model for Look {
    ghost Value = { Seen };

    ghost view = { λ l. record { kind = l.kind; values = take l.count l.seen } };

    ghost invariant = { λ l. l.count ≤ 64 };
}

impl Look {
    /// Nothing is seen yet.
    pub fn new(kind: Kind) -> Look
        ensures { result ≡ record { kind = kind; values = [] } }
    {
        Look {
            kind,
            seen: [Value::X; MOST_GATE_PINS],
            count: 0,
        }
    }

    /// Sees one more pin, and returns whether it decides.
    pub fn see(&mut self, value: Value) -> bool
        requires few { length self.old.values < 64 }
        requires undecided { Undecided self.old }
        requires one { IsTrue (is_unary self.old.kind) → self.old.values ≡ [] }
        ensures seen { self.new ≡ record self.old { values = self.old.values ++ value ∷ [] } }
        ensures decides { result ≡ decides self.old.kind value }
    {
        self.seen[self.count] = value;
        self.count += 1;
        self.kind.decides(value)
    }

    /// The value of the gate from the pins seen.
    pub fn end(&self) -> Value
        requires some { 1 ≤ length self.now.values }
        requires one { IsTrue (is_unary self.now.kind) → length self.now.values ≡ 1 }
        ensures value { result ≡ gate_value self.now.kind self.now.values }
        // once a value has decided, the pins after it change nothing
        ensures decided { Decided self.now → (rest : List Value)
            → gate_value self.now.kind (self.now.values ++ rest) ≡ result }
    {
        eval_all(self.kind, &self.seen[..self.count])
    }
}

/// The result of the pins of a gate seen so far: the value of the gate if it had no further pins. The values themselves are not kept.
#[derive(Clone, Copy, Debug, PartialEq, Eq)]
pub struct Evaluation {
    pub kind: Kind,
    pub value: Value,
}

impl Evaluation {
    /// Nothing is seen yet.
    pub fn new(kind: Kind) -> Evaluation
        ensures kind { result.kind ≡ kind }
        ensures nothing { Evaluates result [] }
    {
        let value = match kind {
            Kind::And | Kind::Nor | Kind::Xnor => Value::One,
            Kind::Nand | Kind::Or | Kind::Xor => Value::Zero,
            Kind::Not | Kind::Buff | Kind::Dff => Value::X,
        };
        Evaluation { kind, value }
    }

    /// Sees one more pin.
    pub fn see(self, value: Value) -> Evaluation
        ensures kind { result.kind ≡ self.kind }
        ensures seen { (seen : List Value) → (IsTrue (is_unary self.kind) → seen ≡ [])
            → Evaluates self seen
            → Evaluates result (seen ++ value ∷ []) }
    {
        let before = self.value;
        let value = match self.kind {
            Kind::And => before.and(value),
            Kind::Nand => before.negation().and(value).negation(),
            Kind::Or => before.or(value),
            Kind::Nor => before.negation().or(value).negation(),
            Kind::Xor => before.xor(value),
            Kind::Xnor => before.negation().xor(value).negation(),
            Kind::Not => value.negation(),
            Kind::Buff | Kind::Dff => value.read(),
        };
        Evaluation {
            kind: self.kind,
            value,
        }
    }
}
