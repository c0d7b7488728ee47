//! The values of an answer as numbers, by their place: 0 past the last one.
ghost use Rattle.std.specs.Prelude.{◌++◌, ◌≡◌, get_or, length};
ghost use Rattle.spi_flash.specs.Value.{flag_value, setting_values};

/// The numbers of a setting.
pub const SETTING_NUMBERS: usize = 4;

/// The trace's `0 or 1`: a From by the name of that definition.
pub fn flag(f: bool) -> u64
    ensures { result ≡ flag_value f }
{
    u64::from(f)
}

/// 0 and no None past the end: it is asked below the count alone, where an Option would be taken apart for nothing.
pub fn at(values: &[u64], i: usize) -> u64
    ensures { result ≡ get_or values.now i 0 }
{
    values.get(i).copied().unwrap_or(0)
}

// ---- a setting: the mark 0, or the mark 1 and its numbers

fn setting_count(setting: Option<[u64; SETTING_NUMBERS]>) -> usize
    ensures { result ≡ length (setting_values setting) }
{
    match setting {
        None => 1,
        Some(numbers) => 1 + numbers.len(),
    }
}

fn setting_value(setting: Option<[u64; SETTING_NUMBERS]>, i: usize) -> u64
    ensures { result ≡ get_or (setting_values setting) i 0 }
{
    match setting {
        None => 0,
        Some(numbers) => { if i == 0 { 1 } else { at(&numbers, i - 1) } }
    }
}

// ---- two settings, one behind the other

/// How many numbers two settings have.
pub fn settings_count(
    first: Option<[u64; SETTING_NUMBERS]>,
    second: Option<[u64; SETTING_NUMBERS]>,
) -> usize
    ensures { result ≡ length (setting_values first ++ setting_values second) }
{
    setting_count(first) + setting_count(second)
}

/// The number of two settings at a place.
pub fn settings_value(
    first: Option<[u64; SETTING_NUMBERS]>,
    second: Option<[u64; SETTING_NUMBERS]>,
    i: usize,
) -> u64
    ensures { result ≡ get_or (setting_values first ++ setting_values second) i 0 }
{
    let before = setting_count(first);
    if i < before {
        setting_value(first, i)
    } else {
        setting_value(second, i - before)
    }
}
