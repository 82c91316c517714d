ghost use Rattle.std.specs.Prelude.{◌≡◌, option_map};
ghost use Rattle.std.specs.Int.{w16, w32, w64};
ghost use Rattle.rx_record.specs.Reading.{Reads};
ghost use Rattle.rx_record.specs.Parts.{byte_of, flag_of, option_of, number_of, text_of, text_above};

// A part and the bytes after it; or how many bytes stand from the faulty part on.
pub(crate) type Read<'a, T> = Result<(T, &'a [u8]), usize>;

pub(crate) fn read_byte(bytes: &[u8]) -> Read<'_, u8>
    ensures { Reads (λ b. b) result (byte_of bytes.now) }
{
    match bytes.split_first() {
        Some((first, rest)) => Ok((*first, rest)),
        None => Err(0),
    }
}

// A byte 0 or 1.
pub(crate) fn read_flag(bytes: &[u8]) -> Read<'_, bool>
    ensures { Reads (λ b. b) result (flag_of bytes.now) }
{
    match read_byte(bytes)? {
        (0, rest) => Ok((false, rest)),
        (1, rest) => Ok((true, rest)),
        _ => Err(bytes.len()),
    }
}

// Two bytes, the high one first.
pub(crate) fn read_short(bytes: &[u8]) -> Read<'_, u16>
    ensures { Reads (λ n. n) result (number_of w16 bytes.now) }
{
    match bytes.split_first_chunk::<2>() {
        Some((digits, rest)) => Ok((u16::from_be_bytes(*digits), rest)),
        None => Err(bytes.len()),
    }
}

// Four bytes, the high one first.
pub(crate) fn read_count(bytes: &[u8]) -> Read<'_, u32>
    ensures { Reads (λ n. n) result (number_of w32 bytes.now) }
{
    match bytes.split_first_chunk::<4>() {
        Some((digits, rest)) => Ok((u32::from_be_bytes(*digits), rest)),
        None => Err(bytes.len()),
    }
}

// Eight bytes, the high one first.
pub(crate) fn read_long(bytes: &[u8]) -> Read<'_, u64>
    ensures { Reads (λ n. n) result (number_of w64 bytes.now) }
{
    match bytes.split_first_chunk::<8>() {
        Some((digits, rest)) => Ok((u64::from_be_bytes(*digits), rest)),
        None => Err(bytes.len()),
    }
}

// A text with its length.
pub(crate) fn read_text(bytes: &[u8]) -> Read<'_, &str>
    ensures { Reads (λ t. t.now) result (text_of bytes.now) }
{
    let (size, rest) = read_count(bytes)?;
    let Some((text, rest)) = rest.split_at_checked(size as usize) else {
        return Err(bytes.len());
    };
    match str::from_utf8(text) {
        Ok(text) => Ok((text, rest)),
        Err(_) => Err(bytes.len()),
    }
}

// A text, if there is one.
pub(crate) fn read_text_if_there(bytes: &[u8]) -> Read<'_, Option<&str>>
    ensures { Reads (option_map (λ t. t.now)) result (option_of text_of bytes.now) }
{
    let (there, rest) = read_flag(bytes)?;
    if !there {
        return Ok((None, rest));
    }
    let (text, rest) = read_text(rest)?;
    Ok((Some(text), rest))
}

// A text above the one before it.
pub(crate) fn read_text_above<'a>(last: Option<&str>, bytes: &'a [u8]) -> Read<'a, &'a str>
    ensures { Reads (λ t. t.now) result
        (text_above (option_map (λ t. t.now) last.entry) bytes.now) }
{
    let (text, rest) = read_text(bytes)?;
    match last {
        Some(last) if !last.cmp(&text).is_lt() => Err(bytes.len()),
        _ => Ok((text, rest)),
    }
}
