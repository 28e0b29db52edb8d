//! What the definitions of matrix texts mean together. Each law is the contract of a function that does
//! nothing.

ghost use Rattle.std.specs.Prelude.{◌≡◌, ◌≤◌, ◌*◌, ◌^◌, ℕ, List, [], Ok, All, IsTrue};
ghost use Rattle.residue_sums.specs.Grids.{AreResidues, Grid, IsFull};
ghost use Rattle.matrix_text.specs.MatrixTexts.{matrix_text};
ghost use Rattle.text_scan.specs.declared.token.Token.{Token};
ghost use Rattle.text_scan.specs.LineOrder.{AreLines};
ghost use Rattle.text_scan.specs.Lines.{Line, lines_of};
ghost use Rattle.text_scan.specs.NormalTexts.{is_line, lines_text};
ghost use Rattle.text_scan.specs.Tokens.{tokens_of};
ghost use Rattle.text_scan.specs.Words.{is_name, is_word};
ghost use Rattle.matrix_text.specs.MatrixFaults.{grid_at, matrix_at};
ghost use Rattle.matrix_text.specs.MatrixLines.{SpellsMatrix, SpellsRows, matrix_lines, size_limit};

/// Lines that spell a matrix have no fault, and are read as that matrix. Its entries are numbers below 2^64.
pub fn spelled_matrices_are_read()
    ensures { (end m room : ℕ) (lines : List Line) (name : List ℕ) (g : Grid) (rest : List Line)
        → m ≤ 2 ^ 64 → AreLines end lines
        → SpellsMatrix m room lines name g rest
        → matrix_at end m room lines ≡ Ok (record { name = name; grid = g }, rest) }
{}

/// What is read without a fault is spelled so, each line of it. Its entries are numbers below 2^64.
pub fn read_matrices_are_spelled()
    ensures { (end m room : ℕ) (lines : List Line) (name : List ℕ) (g : Grid) (rest : List Line)
        → m ≤ 2 ^ 64 → AreLines end lines
        → matrix_at end m room lines ≡ Ok (record { name = name; grid = g }, rest)
        → SpellsMatrix m room lines name g rest }
{}

/// Lines that spell the rows of a matrix, and `end`, have no fault, and are read as its rows.
pub fn spelled_rows_are_read()
    ensures { (end m rows cols : ℕ) (lines : List Line) (g : Grid) (rest : List Line) → m ≤ 2 ^ 64
        → AreLines end lines
        → SpellsRows m rows cols lines g rest → grid_at end m rows cols lines ≡ Ok (g, rest) }
{}

/// Rows that are read without a fault are spelled so, each line of them.
pub fn read_rows_are_spelled()
    ensures { (end m rows cols : ℕ) (lines : List Line) (g : Grid) (rest : List Line) → m ≤ 2 ^ 64
        → AreLines end lines
        → grid_at end m rows cols lines ≡ Ok (g, rest) → SpellsRows m rows cols lines g rest }
{}

/// The printed text is the normal text of the lines, each of which has words. The name is the text of a name:
/// a normal text has no space before a `'`.
pub fn printed_matrices_are_lines()
    ensures text { (name : List ℕ) (g : Grid) → IsTrue (is_name name)
        → matrix_text name g ≡ lines_text (matrix_lines name g) }
    ensures lines { (name : List ℕ) (g : Grid) → IsTrue (is_word name) → IsFull g
        → All (λ words. IsTrue (is_line words)) (matrix_lines name g) }
{}

/// Scanning the printed text of a matrix gives lines that spell it, where its name, sizes and entries can stand
/// in a text.
pub fn printed_matrices_are_spelled()
    ensures { (m room : ℕ) (name : List ℕ) (g : Grid) → IsTrue (is_word name)
        → IsTrue (is_name name)
        → g.rows ≤ size_limit → g.cols ≤ size_limit → g.rows * g.cols ≤ room → IsFull g
        → AreResidues m g
        → (tokens : List Token) × (tokens_of 1 (matrix_text name g) ≡ Ok tokens)
        × SpellsMatrix m room (lines_of (matrix_text name g) tokens) name g [] }
{}
