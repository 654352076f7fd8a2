//! Short texts of what tables say: words and numbers parted by spaces, and parts by semicolons.

use judge::Call;
use std::alloc::Global;
use std::test::Fail;

/// The name before the colon of a text, and the rest.
pub fn named(text: &'static str) -> Result<(&'static str, &'static str), Fail> {
    Ok(text.split_once(':').ok_or("a text without a name")?)
}

/// The part of a text at this place, counted from 0. It is empty where there are fewer.
pub fn part(text: &str, place: usize) -> &str {
    text.split(';').nth(place).unwrap_or("").trim()
}

/// A number that is small, as each count of a text is.
pub fn small(number: u64) -> u32 {
    number.min(u64::from(u32::MAX)) as u32
}

/// The numbers of a text.
pub fn numbers(alloc: Global, text: &str) -> Result<Vec<u64>, Fail> {
    let mut numbers = Vec::new(alloc);
    for word in text.split_whitespace() {
        numbers.push(word.parse::<u64>()?)?;
    }
    Ok(numbers)
}

/// So many numbers of a text; 0 for each that it lacks.
pub fn array<const N: usize>(text: &str) -> Result<[u64; N], Fail> {
    let mut numbers = [0; N];
    for (place, word) in text.split_whitespace().enumerate() {
        *numbers.get_mut(place).ok_or("too many numbers")? = word.parse::<u64>()?;
    }
    Ok(numbers)
}

/// The pairs of a text, as `1:10 2:20`.
pub fn pairs(alloc: Global, text: &str) -> Result<Vec<(u64, u64)>, Fail> {
    let mut pairs = Vec::new(alloc);
    for word in text.split_whitespace() {
        let (key, value) = word.split_once(':').ok_or("a key without a value")?;
        pairs.push((key.parse::<u64>()?, value.parse::<u64>()?))?;
    }
    Ok(pairs)
}

/// A text's first word, and the numbers after it.
pub fn question(alloc: Global, text: &str) -> Result<(&str, Vec<u64>), Fail> {
    let (word, rest) = text.split_once(' ').unwrap_or((text, ""));
    Ok((word, numbers(alloc, rest)?))
}

/// A call, as `insert 1 2`. Where an exchange or a compute has no number for its new value, it takes the value out.
pub fn call_of(alloc: Global, text: &str) -> Result<Call<u64>, Fail> {
    let (word, rest) = text.split_once(' ').unwrap_or((text, ""));
    let count = numbers(alloc, rest)?.len();
    let [key, one, two] = array::<3>(rest)?;
    let second = if count > 1 { Some(one) } else { None };
    let third = if count > 2 { Some(two) } else { None };
    match word {
        "get" => Ok(Call::Get(key)),
        "insert" => Ok(Call::Insert(key, one)),
        "remove" => Ok(Call::Remove(key)),
        "present" => Ok(Call::ComputePresent(key, second)),
        "orinsert" => Ok(Call::ComputeInsert(key, one)),
        "cas" => Ok(Call::Exchange(key, one, third)),
        _ => Err("no call")?,
    }
}
