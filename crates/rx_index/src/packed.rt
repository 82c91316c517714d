ghost use Rattle.std.specs.Prelude.{◌≡◌, [], ◌-◌, ◌∷◌, ◌++◌, ◌↔◌, pos, true, map, IfOk, OnOk, IsTrue, option_map};
ghost use Rattle.rx_index.specs.Packed.{raised_text, value_bytes, values_bytes, is_lawful, AreLawful, IsKey, unpacked};
ghost use Rattle.rx_index.specs.Position.{id_of};
ghost use Rattle.rx_value.specs.declared.value.Value.TheVariants.{Flag, Int, Text};

use rx_runs::Name;
use rx_value::Value;
use std::alloc::{AllocError, Global};

// The bytes that stand for kinds.
const MISSING: u8 = 1;

const FALSE: u8 = 2;

const TRUE: u8 = 3;

const NEGATIVE: u8 = 4;

// Numbers from 0, by how many bytes follow.
const ONE_BYTE: u8 = 5;

const TWO_BYTES: u8 = 6;

const FOUR_BYTES: u8 = 7;

const EIGHT_BYTES: u8 = 8;

const TEXT: u8 = 9;

// The byte behind the values of a position that is after their keys, above each kind.
const AFTER: u8 = 10;

// The byte behind those of a text.
const END: u8 = 0;

// By how much the bytes of a text are raised, so that they stand above all of these. UTF-8 has none
// above 244.
const RAISE: u8 = 11;

// So much room for the bytes of a key is seldom too little.
pub(crate) const ROOM: usize = 48;

pub(crate) fn put_flag(bytes: &mut Vec<u8>, flag: bool) -> Result<(), AllocError>
    ensures { OnOk result (bytes.new.items ≡ bytes.old.items ++ value_bytes (Some (Flag flag))) }
{
    bytes.push(if flag { TRUE } else { FALSE })?;
    Ok(())
}

fn put_number(bytes: &mut Vec<u8>, n: i64) -> Result<(), AllocError>
    ensures bytes { OnOk result (bytes.new.items ≡ bytes.old.items ++ value_bytes (Some (Int n))) }
    ensures lawful { OnOk result (is_lawful (Some (Int n)) ≡ true) }
{
    // It is counted from the least one, so that lower numbers have lower bytes.
    if n < 0 {
        return put_digits(bytes, NEGATIVE, &n.abs_diff(i64::MIN).to_be_bytes());
    }
    put_whole(bytes, n as u64)
}

// A number from 0, in as few bytes as hold it.
fn put_whole(bytes: &mut Vec<u8>, n: u64) -> Result<(), AllocError>
    ensures { OnOk result (bytes.new.items ≡ bytes.old.items ++ value_bytes (Some (Int (pos n)))) }
{
    if n < 1 << 8 {
        put_digits(bytes, ONE_BYTE, &(n as u8).to_be_bytes())
    } else if n < 1 << 16 {
        put_digits(bytes, TWO_BYTES, &(n as u16).to_be_bytes())
    } else if n < 1 << 32 {
        put_digits(bytes, FOUR_BYTES, &(n as u32).to_be_bytes())
    } else {
        put_digits(bytes, EIGHT_BYTES, &n.to_be_bytes())
    }
}

fn put_digits(bytes: &mut Vec<u8>, kind: u8, digits: &[u8]) -> Result<(), AllocError>
    ensures { OnOk result (bytes.new.items ≡ bytes.old.items ++ kind ∷ digits.now) }
{
    bytes.push(kind)?;
    bytes.extend_from_slice(digits)?;
    Ok(())
}

pub(crate) fn put_text(bytes: &mut Vec<u8>, text: &str) -> Result<(), AllocError>
    ensures bytes { OnOk result
        (bytes.new.items ≡ bytes.old.items ++ value_bytes (Some (Text text.now))) }
    ensures lawful { OnOk result (is_lawful (Some (Text text.now)) ≡ true) }
{
    bytes.push(TEXT)?;
    put_raised(bytes, text)?;
    bytes.push(END)?;
    Ok(())
}

fn put_raised(bytes: &mut Vec<u8>, text: &str) -> Result<(), AllocError>
    ensures { OnOk result (bytes.new.items ≡ bytes.old.items ++ raised_text text.now) }
{
    for byte in text.as_bytes() {
        bytes.push(byte + RAISE)?;
    }
    Ok(())
}

pub(crate) fn put_value(bytes: &mut Vec<u8>, value: Option<&Value>) -> Result<(), AllocError>
    ensures bytes { OnOk result (bytes.new.items
        ≡ bytes.old.items ++ value_bytes (option_map (λ v. v.now) value.entry)) }
    ensures lawful { OnOk result (is_lawful (option_map (λ v. v.now) value.entry) ≡ true) }
{
    match value {
        None => {
            bytes.push(MISSING)?;
            Ok(())
        }
        Some(Value::Flag(flag)) => put_flag(bytes, *flag),
        Some(Value::Int(n)) => put_number(bytes, *n),
        Some(Value::Text(text)) => put_text(bytes, text.as_str()),
    }
}

fn put_end(bytes: &mut Vec<u8>, after: bool) -> Result<(), AllocError>
    ensures { OnOk result (bytes.new.items ≡ bytes.old.items ++ values_bytes [] after) }
{
    if after {
        bytes.push(AFTER)?;
    }
    Ok(())
}

// The name of a position: its bytes.
pub(crate) fn name_of(
    alloc: Global,
    values: &[Option<Value>],
    after: bool,
) -> Result<Name, AllocError>
    ensures name { IfOk result (λ n. n ≡ values_bytes values.now after) }
    ensures lawful { OnOk result (AreLawful values.now) }
{
    let mut bytes = Vec::with_capacity(alloc, ROOM)?;
    for value in values {
        put_value(&mut bytes, value.as_ref())?;
    }
    put_end(&mut bytes, after)?;
    Ok(Name::new(alloc, bytes.as_slice())?)
}

// The raised bytes of the primary key in a key.
pub(crate) fn id_bytes(key: &[u8]) -> &[u8]
    requires { IsKey key.now }
    ensures { result.now ≡ raised_text (id_of (unpacked key.now)) }
{
    let end = key.len() - 1;
    let mut start = end;
    'walk: while start > 0 {
        if key[start - 1] < RAISE {
            return &key[start..end];
        }
        start -= 1;
    }
    unreachable!("the kind of the primary key stands before it")
}

// Whether these are the raised bytes of a text.
pub(crate) fn is_raised(raised: &[u8], text: &[u8]) -> bool
    ensures { IsTrue result ↔ (raised.now ≡ raised_text text.now) }
{
    if raised.len() != text.len() {
        return false;
    }
    for i in 0..raised.len() {
        if raised[i] as u16 != text[i] as u16 + RAISE as u16 {
            return false;
        }
    }
    true
}

// The text of raised bytes.
pub(crate) fn lowered(alloc: Global, raised: &[u8]) -> Result<Vec<u8>, AllocError>
    ensures { IfOk result (λ bytes. bytes.items ≡ map (λ b. b - RAISE) raised.now) }
{
    let mut bytes = Vec::with_capacity(alloc, raised.len())?;
    for byte in raised {
        bytes.push(byte.saturating_sub(RAISE))?;
    }
    Ok(bytes)
}
