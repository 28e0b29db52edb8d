//! What the definitions of tokens and lines mean together. Each law is the contract of a function that does
//! nothing.

ghost use Rattle.std.specs.Prelude.{◌≡◌, ℕ, ◌+◌, List, length, take, Ok, Err, All, IsTrue};
ghost use Rattle.text_scan.specs.declared.token.Token.{Token};
ghost use Rattle.text_scan.specs.Lines.{lines_of, end_line_of};
ghost use Rattle.text_scan.specs.NormalTexts.{is_line, lines_text, numbered_lines};
ghost use Rattle.text_scan.specs.Scanned.{AreTokens};
ghost use Rattle.text_scan.specs.Tokenization.{AreAllTokens, IsFirstBad};
ghost use Rattle.text_scan.specs.Tokens.{tokens_of};

/// The tokens that a scan answers are slices in order, each the whole text of a token of its kind.
pub fn scanned_texts_have_tokens()
    ensures { (first_line : ℕ) (bytes : List ℕ) (tokens : List Token)
        → tokens_of first_line bytes ≡ Ok tokens → AreTokens first_line bytes tokens }
{}

/// The tokens that a scan answers are all that a text has, each on the line where it begins: every other byte is a
/// blank or in a comment, and none of them could be longer. What it answers as bad is the first byte that is none
/// of these.
pub fn tokens_are_all_of_a_text()
    ensures tokens { (first_line : ℕ) (bytes : List ℕ) (tokens : List Token)
        → tokens_of first_line bytes ≡ Ok tokens → AreAllTokens bytes tokens }
    ensures lines { (first_line : ℕ) (bytes : List ℕ) (tokens : List Token)
        → tokens_of first_line bytes ≡ Ok tokens
        → All (λ t. t.line ≡ end_line_of first_line (take t.start bytes)) tokens }
    ensures bad_byte { (first_line : ℕ) (bytes : List ℕ) (at line : ℕ)
        → tokens_of first_line bytes ≡ Err (record { at = at; line = line })
        → IsFirstBad first_line bytes at line }
{}

/// Scanning a normal text gives its lines back, one after another from the first one's number. The line at
/// its end has the next number.
pub fn normal_texts_are_scanned()
    ensures tokens { (first_line : ℕ) (lines : List (List (List ℕ)))
        → All (λ words. IsTrue (is_line words)) lines
        → (tokens : List Token) × (tokens_of first_line (lines_text lines) ≡ Ok tokens)
        × (lines_of (lines_text lines) tokens ≡ numbered_lines first_line lines) }
    ensures end_line { (first_line : ℕ) (lines : List (List (List ℕ)))
        → All (λ words. IsTrue (is_line words)) lines
        → end_line_of first_line (lines_text lines) ≡ first_line + length lines }
{}
