//! Bytes of a word.
ghost use Rattle.std.specs.Prelude.{◌≡◌, ◌≢◌, ℕ, [], ◌∷◌, ◌<◌, ◌≤◌, ◌^◌, ◌/◌, ◌%◌, ◌*◌, ◌+◌};
ghost use Rattle.std.specs.Int.{bit_at};
ghost use Rattle.optimistic.specs.forms.Bytes.{byte_of, with_at, IsLowest, IsMarked, IsSparse, key_of};

const LOW: u64 = 0x0101010101010101;

const HIGH: u64 = 0x8080808080808080;

const GATHER: u64 = 0x0102040810204080;

/// A byte of a word, the lowest first.
#[inline(always)]
pub fn byte_at(word: u64, place: usize) -> u8
    requires { place < 8 }
    ensures { result ≡ byte_of word place }
{
    ((word >> (8 * place)) & 255) as u8
}

/// The word with another byte at a place.
#[inline(always)]
pub fn with_byte(word: u64, place: usize, byte: u8) -> u64
    requires { place < 8 }
    ensures { (q : ℕ) → byte_of result q ≡ with_at (byte_of word) place byte q }
{
    word ^ ((byte_at(word, place) ^ byte) as u64) << (8 * place)
}

/// The lowest place that has the byte, by looking at each.
pub fn place_by_loop(word: u64, byte: u8) -> Option<usize>
    ensures { IsLowest 8 (byte_of word) byte result }
{
    for place in 0..8 {
        if byte_at(word, place) == byte {
            return Some(place);
        }
    }
    None
}

/// The highest bit of the lowest byte that is equal is the lowest bit that is set.
#[inline(always)]
pub fn marks(word: u64, byte: u8) -> u64
    ensures marked { IsMarked 8 8 (byte_of word) byte result }
    ensures sparse { IsSparse result }
{
    let x = word ^ (byte as u64 * LOW);
    x.wrapping_sub(LOW) & !x & HIGH
}

/// The same of the lowest four bytes.
#[inline(always)]
pub fn marks_of_four(word: u64, byte: u8) -> u64
    ensures { IsMarked 8 4 (byte_of word) byte result }
{
    marks(word, byte) & 0xffffffff
}

/// The lowest place that has the byte.
#[inline(always)]
pub fn place_of(word: u64, byte: u8) -> Option<usize>
    ensures { IsLowest 8 (byte_of word) byte result }
{
    let t = marks(word, byte);
    if t == 0 {
        None
    } else {
        Some((t.trailing_zeros() >> 3) as usize)
    }
}

/// The lowest of four places that has the byte.
#[inline(always)]
pub fn place_of_four(word: u64, byte: u8) -> Option<usize>
    ensures { IsLowest 4 (byte_of word) byte result }
{
    let t = marks_of_four(word, byte);
    if t == 0 {
        None
    } else {
        Some((t.trailing_zeros() >> 3) as usize)
    }
}

/// The highest bits of the eight bytes, side by side.
#[inline(always)]
pub fn pack(marks: u64) -> u64
    requires { IsSparse marks }
    ensures { (key : ℕ → ℕ) (b : ℕ) → IsMarked 8 8 key b marks → IsMarked 1 8 key b result }
{
    (marks >> 7).wrapping_mul(GATHER) >> 56
}

/// A bit for each byte of a word: the lowest that is set is that of the lowest byte that is equal.
#[inline(always)]
pub fn word_marks(word: u64, byte: u8) -> u64
    ensures { IsMarked 1 8 (byte_of word) byte result }
{
    pack(marks(word, byte))
}

/// The bits of further eight places beside those of the first n.
#[inline(always)]
pub fn beside(low: u64, high: u64, places: usize) -> u64
    requires { places ≤ 56 }
    ensures { (key : ℕ → ℕ) (b w : ℕ) → IsMarked 1 places key b low → IsMarked 1 8 (byte_of w) b high → ((i : ℕ) → i < 8 → key (places + i) ≡ byte_of w i) → IsMarked 1 (places + 8) key b result }
{
    low | high << places
}

/// The bits of two words.
#[inline(always)]
pub fn two_marks(a: u64, b: u64, byte: u8) -> u64
    ensures { IsMarked 1 16 (key_of (a ∷ b ∷ [])) byte result }
{
    beside(word_marks(a, byte), word_marks(b, byte), 8)
}

/// The bits of six words.
#[inline(always)]
pub fn six_marks(a: u64, b: u64, c: u64, d: u64, e: u64, f: u64, byte: u8) -> u64
    ensures { IsMarked 1 48 (key_of (a ∷ b ∷ c ∷ d ∷ e ∷ f ∷ [])) byte result }
{
    let two = beside(word_marks(a, byte), word_marks(b, byte), 8);
    let three = beside(two, word_marks(c, byte), 16);
    let four = beside(three, word_marks(d, byte), 24);
    let five = beside(four, word_marks(e, byte), 32);
    beside(five, word_marks(f, byte), 40)
}

/// The lowest of sixteen places that has the byte.
#[inline(always)]
pub fn place_of_sixteen(a: u64, b: u64, byte: u8) -> Option<usize>
    ensures { IsLowest 16 (key_of (a ∷ b ∷ [])) byte result }
{
    let t = two_marks(a, b, byte);
    if t == 0 {
        None
    } else {
        Some(t.trailing_zeros() as usize)
    }
}

/// The lowest of forty-eight places that has the byte.
#[inline(always)]
pub fn place_of_forty_eight(
    a: u64,
    b: u64,
    c: u64,
    d: u64,
    e: u64,
    f: u64,
    byte: u8,
) -> Option<usize>
    ensures { IsLowest 48 (key_of (a ∷ b ∷ c ∷ d ∷ e ∷ f ∷ [])) byte result }
{
    let t = six_marks(a, b, c, d, e, f, byte);
    if t == 0 {
        None
    } else {
        Some(t.trailing_zeros() as usize)
    }
}
