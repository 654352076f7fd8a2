//! Names of freed nodes go from one list to another.
ghost use Rattle.std.specs.Prelude.{◌≡◌, ◌<◌, length};
ghost use Rattle.optimistic.specs.tree.Trades.{Stay};

use crate::tree::fresh::Free;
use crate::words::width_of;

/// The most words of freed nodes of one form that a worker keeps back: a dozen of the smallest nodes, so that most writes that want a
/// node find one without a trade.
const MOST_SHARE: usize = 128;

/// The part of the table that a worker keeps back of one form at most. Of eight forms, each kept twice over, a sixteenth.
const SHARES: usize = 256;

/// How many words of freed nodes of one form a worker of a table of so many words keeps back.
pub fn share_of(words: usize) -> usize {
    (words / SHARES).min(MOST_SHARE)
}

/// What is done with names at a trade.
#[derive(Clone, Copy, Drop)]
pub enum Trade {
    /// Names are taken of these forms, bit i for form i, where there is none.
    Take(u64),
    /// Names beyond those that are kept back are given.
    Give,
    /// All are given.
    Leave,
}

impl Free {
    /// How many names there are of nodes of this form.
    fn count(&self, form: u64) -> usize
        requires forms { length self.now.lists.items ≡ 9 }
        requires form { form < 9 }
    {
        self.lists[form as usize].len()
    }

    /// How many names of nodes of this form are kept back.
    fn usual(&self, form: u64) -> usize
        requires { (0 < form) × (form < 9) }
    {
        self.share / width_of(form)
    }

    /// How many words the nodes of a form have that are named.
    fn words_of(&self, form: u64) -> usize
        requires forms { length self.now.lists.items ≡ 9 }
        requires form { (0 < form) × (form < 9) }
    {
        self.count(form).saturating_mul(width_of(form))
    }

    /// Whether there are names of a form for more than twice the words that are kept back.
    pub fn is_laden(&self) -> bool
        requires { length self.now.lists.items ≡ 9 }
    {
        let most = self.share.saturating_mul(2);
        for form in 1..9u64 {
            if self.words_of(form) > most {
                return true;
            }
        }
        false
    }

    /// Of which forms there are names: bit i tells it of form i.
    pub fn stocked(&self) -> u64
        requires { length self.now.lists.items ≡ 9 }
    {
        let mut forms = 0;
        for form in 1..9u64 {
            if self.count(form) > 0 {
                forms |= 1 << form;
            }
        }
        forms
    }

    /// How many words the nodes have that are named.
    pub fn words(&self) -> u64
        requires { length self.now.lists.items ≡ 9 }
    {
        let mut words = 0u64;
        for form in 1..9u64 {
            words = words.saturating_add(self.words_of(form) as u64);
        }
        words
    }

    /// Gives another the last name of a node of this form, if there is one.
    fn pass(&mut self, to: &mut Free, form: u64)
        requires forms { (length self.old.lists.items ≡ 9) × (length to.old.lists.items ≡ 9) }
        requires form { (0 < form) × (form < 9) }
        ensures forms { (length self.new.lists.items ≡ 9) × (length to.new.lists.items ≡ 9) }
        ensures names { Stay self.old to.old self.new to.new }
    {
        if let Some(node) = self.pop(form) {
            to.give(node, form);
        }
    }

    /// Gives another the last names of nodes of this form, so many if there are as many.
    fn pass_some(&mut self, to: &mut Free, form: u64, count: usize)
        requires forms { (length self.old.lists.items ≡ 9) × (length to.old.lists.items ≡ 9) }
        requires form { (0 < form) × (form < 9) }
        ensures forms { (length self.new.lists.items ≡ 9) × (length to.new.lists.items ≡ 9) }
        ensures names { Stay self.old to.old self.new to.new }
    {
        for _ in 0..count {
            self.pass(to, form);
        }
    }

    /// Gives another what there is of a form beyond so many.
    fn give_beyond(&mut self, other: &mut Free, form: u64, keep: usize)
        requires forms { (length self.old.lists.items ≡ 9) × (length other.old.lists.items ≡ 9) }
        requires form { (0 < form) × (form < 9) }
        ensures forms { (length self.new.lists.items ≡ 9) × (length other.new.lists.items ≡ 9) }
        ensures names { Stay self.old other.old self.new other.new }
    {
        let have = self.count(form);
        self.pass_some(other, form, have.saturating_sub(keep));
    }

    /// Takes from another what is kept back of a form, one name at least, where there is none.
    fn take_lacking(&mut self, other: &mut Free, form: u64)
        requires forms { (length self.old.lists.items ≡ 9) × (length other.old.lists.items ≡ 9) }
        requires form { (0 < form) × (form < 9) }
        ensures forms { (length self.new.lists.items ≡ 9) × (length other.new.lists.items ≡ 9) }
        ensures names { Stay self.old other.old self.new other.new }
    {
        if self.count(form) > 0 {
            return;
        }
        let usual = self.usual(form);
        other.pass_some(self, form, usual.max(1));
    }

    /// A trade of one form with another's names.
    fn trade_form(&mut self, other: &mut Free, form: u64, trade: Trade)
        requires forms { (length self.old.lists.items ≡ 9) × (length other.old.lists.items ≡ 9) }
        requires form { (0 < form) × (form < 9) }
        ensures forms { (length self.new.lists.items ≡ 9) × (length other.new.lists.items ≡ 9) }
        ensures names { Stay self.old other.old self.new other.new }
    {
        match trade {
            Trade::Take(forms) => {
                if forms >> form & 1 == 1 {
                    self.take_lacking(other, form);
                }
            }
            Trade::Give => {
                let usual = self.usual(form);
                self.give_beyond(other, form, usual);
            }
            Trade::Leave => self.give_beyond(other, form, 0),
        }
    }

    /// A trade with another's names.
    pub fn trade(&mut self, other: &mut Free, trade: Trade)
        requires forms { (length self.old.lists.items ≡ 9) × (length other.old.lists.items ≡ 9) }
        ensures forms { (length self.new.lists.items ≡ 9) × (length other.new.lists.items ≡ 9) }
        ensures names { Stay self.old other.old self.new other.new }
    {
        for form in 1..9u64 {
            self.trade_form(other, form, trade);
        }
    }
}
