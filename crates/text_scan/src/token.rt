ghost use Rattle.std.specs.Prelude.{◌≡◌};
ghost use Rattle.text_scan.specs.declared.token.ScanFault.TheVariants.{Memory};

use std::alloc::AllocFailed;

/// What a token is.
#[derive(Clone, Copy, Debug, PartialEq, Eq)]
pub enum TokenKind {
    /// A letter, and all letters, digits and `_` that follow.
    Name,
    /// A run of digits, as long as it goes.
    Number,
    /// One of `( ) , : = + - * '`.
    Sign,
}

/// A token: the slice of its source that begins at `start`, counted from 0, and has `len` bytes, at least
/// one. It stands on the line with the number `line`.
#[derive(Clone, Copy, Debug, PartialEq, Eq)]
pub struct Token {
    pub kind: TokenKind,
    pub start: u32,
    pub len: u32,
    pub line: u32,
}

/// What begins with a byte that is in no token before it.
#[derive(Clone, Copy, Debug, PartialEq, Eq)]
pub enum Front {
    /// Nothing that a text may have.
    Bad,
    /// A space, tab, carriage return or line feed.
    Blank,
    /// A comment, up to the line's end.
    Comment,
    /// A token of this kind.
    Token(TokenKind),
}

/// Why bytes have no tokens.
#[derive(Clone, Copy, Debug, PartialEq, Eq)]
pub enum ScanFault {
    /// Memory ran out.
    Memory,
    /// The first byte outside comments that is in no token and no blank: its place, from 0, and its line.
    BadByte { at: u32, line: u32 },
}

impl<T: Drop> From<AllocFailed<T>> for ScanFault {
    ghost from_gives = { λ _ e. e ≡ Memory };

    fn from(_e: AllocFailed<T>) -> ScanFault {
        ScanFault::Memory
    }
}
