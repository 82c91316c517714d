ghost use Rattle.std.specs.Prelude.{◌≡◌};
ghost use Rattle.std.specs.List.{list_all};
ghost use Rattle.rx_value.specs.Name.{is_name, is_name_byte, is_field_name, is_field_byte};

/// The most bytes of a name.
const LONGEST: usize = 64;

/// Whether the text may name a collection, a query or a replication.
pub fn is_name(text: &str) -> bool
    ensures { result ≡ is_name text.now }
{
    match text.as_bytes().split_first() {
        None => false,
        Some((first, rest)) => first.is_ascii_lowercase()
            && rest.len() < LONGEST
            && are_name_bytes(rest),
    }
}

fn are_name_bytes(bytes: &[u8]) -> bool
    ensures { result ≡ list_all is_name_byte bytes.now }
{
    bytes.iter().all(|b| is_name_byte(*b))
}

fn is_name_byte(byte: u8) -> bool
    ensures { result ≡ is_name_byte byte }
{
    byte.is_ascii_lowercase() || byte.is_ascii_digit() || byte == b'_' || byte == b'-'
}

/// Whether the text may name a field.
pub fn is_field_name(text: &str) -> bool
    ensures { result ≡ is_field_name text.now }
{
    match text.as_bytes().split_first() {
        None => false,
        Some((first, rest)) => first.is_ascii_alphabetic()
            && rest.len() < LONGEST
            && are_field_bytes(rest),
    }
}

fn are_field_bytes(bytes: &[u8]) -> bool
    ensures { result ≡ list_all is_field_byte bytes.now }
{
    bytes.iter().all(|b| is_field_byte(*b))
}

fn is_field_byte(byte: u8) -> bool
    ensures { result ≡ is_field_byte byte }
{
    byte.is_ascii_alphanumeric() || byte == b'_'
}
