//! Values that are skipped: they are read as `serde_json` reads them, and nothing inside an array or an object is kept. One loop does this,
//! and keeps only the kind of each open array or object. So a deeply nested value takes no more of the stack than others, and no memory.

ghost use Rattle.std.specs.Prelude.{◌≡◌, ◌==◌, ◌≤◌, ◌<◌, ℕ, true, false, None, Some, IfOk, OnOk, OnErr, cond, length, option_and_then, option_map, slice_index};
ghost use Rattle.json.specs.Json.{value};
ghost use Rattle.serde_json.specs.Find.{as_u64};
ghost use Rattle.serde_json.specs.Read.{converted, float_of, number_from, number_of, of_json};
ghost use Rattle.relay_messages.specs.Beginnings.{Begins, opened_by};
ghost use Rattle.relay_messages.specs.Passing.{passed, rest_passed, still_passed};

use arrayvec::ArrayVec;
use fast_float::Numeral;
use json::{Invalid, Reader, Token};

/// How many arrays and objects may be open around another one. `serde_json` reads values that nest 127 deep, and a member's value that
/// is skipped is never the outermost.
const MOST_OUTER: usize = 126;

/// What opens.
#[derive(Clone, Copy)]
pub enum Nest {
    /// An array.
    Array,
    /// An object.
    Object,
}

impl Default for Nest {
    fn default() -> Nest {
        Nest::Array
    }
}

/// The beginning of a value.
#[derive(Clone, Copy)]
pub enum Beginning<'a> {
    /// A text, which is the value.
    Text(&'a str),
    /// An unsigned whole number, which is the value.
    Whole(u64),
    /// Another number, a truth value or `null`, which is the value.
    Other,
    /// An array or an object opens.
    Opens(Nest),
}

impl Beginning<'_> {
    /// What opens, if anything does.
    fn opens(self) -> Option<Nest>
        ensures { result ≡ opened_by self.entry }
    {
        match self {
            Beginning::Opens(nest) => Some(nest),
            Beginning::Text(_) => None,
            Beginning::Whole(_) => None,
            Beginning::Other => None,
        }
    }
}

/// Whether a number's text has a minus sign.
pub fn has_minus(digits: &[u8]) -> bool
    ensures value { result ≡ (slice_index digits.now 0 == 45) }
{
    !digits.is_empty() && digits[0] == b'-'
}

/// A number as a float: whether it is within the range of floats.
fn nearest(is_negative: bool, numeral: &Numeral<'_>) -> Option<Option<u64>>
    ensures { result ≡ option_map as_u64 (float_of is_negative numeral.now) }
{
    if numeral.to_float::<f64>(is_negative).is_finite() {
        Some(None)
    } else {
        None
    }
}

/// A number without a minus sign.
fn unsigned(numeral: &Numeral<'_>) -> Option<Option<u64>>
    ensures { result ≡ option_map as_u64 (number_from false numeral.now) }
{
    match numeral.to_u64() {
        Some(number) => Some(Some(number)),
        None => nearest(false, numeral),
    }
}

/// A number after a minus sign. It is never an unsigned whole number.
fn negative(numeral: &Numeral<'_>) -> Option<Option<u64>>
    ensures { result ≡ option_map as_u64 (number_from true numeral.now) }
{
    match numeral.to_i64(true) {
        Some(number) if number < 0 => Some(None),
        _ => nearest(true, numeral),
    }
}

/// The unsigned whole number of a number's text. It is `Some(None)` for any other number, and `None` if `serde_json` reads no
/// number, because it is past the range of floats.
fn number_in(text: &str) -> Option<Option<u64>>
    ensures { result ≡ option_map as_u64 (number_of text.now) }
{
    let bytes = text.as_bytes();
    if has_minus(bytes) {
        negative(&Numeral::scan(&bytes[1..]))
    } else {
        unsigned(&Numeral::scan(bytes))
    }
}

/// Reads the beginning of the next value.
pub fn take_beginning<'a>(reader: &mut Reader<'a>) -> Result<Beginning<'a>, Invalid>
    ensures begins { IfOk result (λ beginning. Begins beginning reader.old reader.new) }
    ensures shorter { OnOk result (length reader.new < length reader.old) }
    ensures err { OnErr result ((depth : ℕ) → converted of_json (value depth reader.old) ≡ None) }
{
    let token = reader.next().ok_or(Invalid)?;
    match token {
        Token::String(text) => Ok(Beginning::Text(text)),
        Token::Number(text) => match number_in(text) {
            Some(Some(number)) => Ok(Beginning::Whole(number)),
            Some(None) => Ok(Beginning::Other),
            None => Err(Invalid),
        },
        Token::Bool(_) => Ok(Beginning::Other),
        Token::Null => Ok(Beginning::Other),
        Token::BeginArray => Ok(Beginning::Opens(Nest::Array)),
        Token::BeginObject => Ok(Beginning::Opens(Nest::Object)),
        Token::EndObject | Token::EndArray | Token::Key(_) | Token::Bad => Err(Invalid),
    }
}

/// Reads what closes an array or an object, or the key of an object's next member. Returns whether it closes.
fn closes(reader: &mut Reader<'_>, nest: Nest) -> Result<bool, Invalid>
    ensures ok { IfOk result (λ closes. (depth : ℕ) → rest_passed nest depth reader.old
        ≡ cond closes (Some reader.new) (option_and_then (rest_passed nest depth) (passed depth reader.new))) }
    ensures no_longer { OnOk result (length reader.new ≤ length reader.old) }
    ensures shorter { IfOk result (λ closes. closes ≡ true → length reader.new < length reader.old) }
    ensures err { OnErr result ((depth : ℕ) → rest_passed nest depth reader.old ≡ None) }
{
    match nest {
        Nest::Array => Ok(reader.take_end_array()),
        Nest::Object => match reader.next_key()? {
            Some(_) => Ok(false),
            None => Ok(true),
        },
    }
}

/// The arrays and objects that are open.
#[derive(Drop)]
struct Open {
    /// All but the innermost, the outermost first.
    outer: ArrayVec<Nest, MOST_OUTER>,
    innermost: Nest,
}

impl Open {
    /// One turn: the next element of the innermost is skipped, or opens, or closes it. Returns whether anything is still open. Within the
    /// outermost, values may nest `depth` deep.
    fn turn(&mut self, reader: &mut Reader<'_>, depth: usize) -> Result<bool, Invalid>
        requires most { depth ≤ 126 }
        requires room { length self.old.outer.items ≤ depth }
        ensures going { IfOk result (λ goes_on. goes_on ≡ true → still_passed depth self.old.outer.items self.old.innermost reader.old
            ≡ still_passed depth self.new.outer.items self.new.innermost reader.new) }
        ensures within { IfOk result (λ goes_on. goes_on ≡ true → length self.new.outer.items ≤ depth) }
        ensures shorter { IfOk result (λ goes_on. goes_on ≡ true → length reader.new < length reader.old) }
        ensures over { IfOk result (λ goes_on. goes_on ≡ false → still_passed depth self.old.outer.items self.old.innermost reader.old ≡ Some reader.new) }
        ensures err { OnErr result (still_passed depth self.old.outer.items self.old.innermost reader.old ≡ None) }
    {
        let is_closed = closes(reader, self.innermost)?;
        if is_closed {
            return match self.outer.pop() {
                Some(nest) => {
                    self.innermost = nest;
                    Ok(true)
                }
                None => Ok(false),
            };
        }
        let beginning = take_beginning(reader)?;
        let Some(inner) = beginning.opens() else {
            return Ok(true);
        };
        if self.outer.len() >= depth {
            return Err(Invalid);
        }
        self.outer.push(self.innermost);
        self.innermost = inner;
        Ok(true)
    }
}

/// Skips the rest of an array or an object that was opened, within which values may nest `depth` deep.
pub fn pass_rest(reader: &mut Reader<'_>, nest: Nest, depth: usize) -> Result<(), Invalid>
    requires { depth ≤ 126 }
    ensures ok { OnOk result (rest_passed nest depth reader.old ≡ Some reader.new) }
    ensures err { OnErr result (rest_passed nest depth reader.old ≡ None) }
{
    let mut open = Open {
        outer: ArrayVec::new(),
        innermost: nest,
    };
    'turns: while open.turn(reader, depth)? {}
    Ok(())
}
