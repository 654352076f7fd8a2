//! A pointer as one word: the tag in the low 8 bits, the turn in the 32 above it, and the cell's number in the high 24.

ghost use Rattle.std.specs.Prelude.{◌≡◌, ◌≤◌, ◌%◌, ℕ, IfSome, None};
ghost use Rattle.crossbeam_epoch.specs.face.Packed.{word_of, no_cell, Says};
ghost use Rattle.crossbeam_epoch.specs.declared.face.link.Link.{Link};

use crate::face::link::{Link, Site};

/// The number that no cell has: a collector has fewer cells.
const NO_CELL: u32 = 0xFF_FFFF;

/// A word that says no pointer.
pub const AWAY: u64 = 0xFFFF_FF00_0000_0100;

/// The word of this cell's number, this turn and this tag.
fn word_of(cell: u32, turn: u32, tag: u8) -> u64
    requires { cell ≤ no_cell }
    ensures value { result ≡ word_of cell turn tag }
    ensures tag { result % 256 ≡ tag }
{
    u64::from(cell) * 0x100_0000_0000 + u64::from(turn) * 0x100 + u64::from(tag)
}

/// The word that says this pointer. `None` where it leads to another collector than the home one, or to a cell that no
/// collector has.
pub fn pack(link: Link, home: Option<u64>) -> Option<u64>
    ensures word { IfSome result (λ w. Says home w link) }
    ensures tag { IfSome result (λ w. w % 256 ≡ link.tag) }
    ensures none { result ≡ None → (w : ℕ) → ¬ Says home w link }
{
    let Some(site) = link.site else {
        return Some(word_of(NO_CELL, 0, link.tag));
    };
    match home {
        Some(id) if id == site.collector && site.cell < NO_CELL => {
            Some(word_of(site.cell, site.turn, link.tag))
        }
        _ => None,
    }
}

/// The pointer that a word says. `None` where it says none: it is `AWAY`, or leads to a cell and there is no home.
pub fn unpack(word: u64, home: Option<u64>) -> Option<Link>
    ensures link { IfSome result (λ l. Says home word l) }
    ensures tag { IfSome result (λ l. l.tag ≡ word % 256) }
    ensures none { result ≡ None → (l : Link) → ¬ Says home word l }
{
    let cell = (word / 0x100_0000_0000) as u32;
    let turn = (word / 0x100 % 0x1_0000_0000) as u32;
    let tag = (word % 0x100) as u8;
    if cell == NO_CELL {
        if turn > 0 {
            return None;
        }
        return Some(Link { site: None, tag });
    }
    let collector = home?;
    Some(Link {
        site: Some(Site {
            collector,
            cell,
            turn,
        }),
        tag,
    })
}
