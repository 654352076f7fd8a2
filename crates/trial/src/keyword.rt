//! The words of the script that aren't numbers.
ghost use Rattle.std.specs.Prelude.{◌≡◌, IfSome, IfNone};
ghost use Rattle.trial.specs.Words.{text_of};

/// A word of the script's language.
#[derive(Clone, Copy)]
pub enum Keyword {
    New,
    Limit,
    Version,
    Journal,
    Reg,
    Pin,
    Unpin,
    Repin,
    Flush,
    Release,
    Round,
    Get,
    Remove,
    Insert,
    Present,
    Add,
    Drop,
    OrInsert,
    Cas,
    Range,
    Through,
    Keys,
    Empty,
    Stats,
    Begin,
    Go,
    Fail,
    Charged,
    Waiting,
    Close,
}

/// Those that most lines have come first.
const ALL: [Keyword; 30] = [
    Keyword::Get,
    Keyword::Insert,
    Keyword::Remove,
    Keyword::Pin,
    Keyword::Unpin,
    Keyword::Round,
    Keyword::Flush,
    Keyword::Repin,
    Keyword::OrInsert,
    Keyword::Present,
    Keyword::Add,
    Keyword::Drop,
    Keyword::Cas,
    Keyword::Range,
    Keyword::Through,
    Keyword::Keys,
    Keyword::Empty,
    Keyword::Stats,
    Keyword::Begin,
    Keyword::Go,
    Keyword::Fail,
    Keyword::Reg,
    Keyword::Release,
    Keyword::New,
    Keyword::Limit,
    Keyword::Version,
    Keyword::Journal,
    Keyword::Charged,
    Keyword::Waiting,
    Keyword::Close,
];

impl Keyword {
    /// The keyword as a script spells it.
    pub fn text(self) -> &'static [u8]
        ensures { result.now ≡ text_of self }
    {
        match self {
            Keyword::New => b"new",
            Keyword::Limit => b"limit",
            Keyword::Version => b"version",
            Keyword::Journal => b"journal",
            Keyword::Reg => b"reg",
            Keyword::Pin => b"pin",
            Keyword::Unpin => b"unpin",
            Keyword::Repin => b"repin",
            Keyword::Flush => b"flush",
            Keyword::Release => b"release",
            Keyword::Round => b"round",
            Keyword::Get => b"get",
            Keyword::Remove => b"remove",
            Keyword::Insert => b"insert",
            Keyword::Present => b"present",
            Keyword::Add => b"add",
            Keyword::Drop => b"drop",
            Keyword::OrInsert => b"orinsert",
            Keyword::Cas => b"cas",
            Keyword::Range => b"range",
            Keyword::Through => b"through",
            Keyword::Keys => b"keys",
            Keyword::Empty => b"empty",
            Keyword::Stats => b"stats",
            Keyword::Begin => b"begin",
            Keyword::Go => b"go",
            Keyword::Fail => b"fail",
            Keyword::Charged => b"charged",
            Keyword::Waiting => b"waiting",
            Keyword::Close => b"close",
        }
    }

    /// The keyword that the word spells, or none.
    pub fn of(word: &[u8]) -> Option<Keyword>
        ensures found { IfSome result (λ key. word.now ≡ text_of key) }
        ensures none { IfNone result ((key : Keyword) → word.now ≡ text_of key → ⊥) }
    {
        for key in ALL {
            if key.text() == word {
                return Some(key);
            }
        }
        None
    }
}
