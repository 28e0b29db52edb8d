//! What the definitions of blocks mean together. Each law is the contract of a function that does nothing.

ghost use Rattle.std.specs.Prelude.{◌≡◌, ◌≢◌, ◌⊎◌, ◌+◌, ◌*◌, ◌/◌, ◌%◌, ◌<◌, ◌≤◌, ℕ};
ghost use Rattle.residue_sums.specs.Sums.{part_length};
ghost use Rattle.residue_sums.specs.Grids.{Grid, IsFull, entry};
ghost use Rattle.flash_blocks.specs.Blocks.{block_of, gathered, grid_of};
ghost use Rattle.flash_blocks.specs.Flashes.{BlockedGrid, HasShapes, IsBlock, IsFlash};
ghost use Rattle.flash_blocks.specs.Flashes.{cut_of, flash_block, with_block};

/// The blocks of a matrix have the shapes of their parts, and what is gathered from them is the matrix.
pub fn gathered_cuts_are_whole()
    ensures shapes { (b : ℕ) (g : Grid) → 1 ≤ b → HasShapes (cut_of b g) }
    ensures whole { (b : ℕ) (g : Grid) → 1 ≤ b → IsFull g
        → grid_of (gathered b (flash_block (cut_of b g))) g.rows g.cols ≡ g }
{}

/// Blocks that have the shapes of their parts are the blocks of the matrix that is gathered from them, so
/// that no other matrix has these blocks.
pub fn cut_of_gathered()
    ensures { (f : BlockedGrid) → 1 ≤ f.b → HasShapes f
        → cut_of f.b (grid_of (gathered f.b (flash_block f)) f.rows f.cols) ≡ f }
{}

/// Each entry of a matrix stands in just one block, and there at one place.
pub fn entries_stand_in_one_block()
    ensures block { (b : ℕ) (g : Grid) (r c : ℕ) → 1 ≤ b → r < g.rows → c < g.cols
        → IsBlock (cut_of b g) (r / b) (c / b) }
    ensures place { (b : ℕ) (g : Grid) (r c : ℕ) → 1 ≤ b → r < g.rows → c < g.cols
        → (r % b < part_length g.rows b (r / b)) × (c % b < part_length g.cols b (c / b)) }
    ensures there { (b : ℕ) (g : Grid) (r c : ℕ) → 1 ≤ b → r < g.rows → c < g.cols
        → entry (flash_block (cut_of b g) (r / b) (c / b)) (r % b) (c % b) ≡ entry g r c }
    ensures nowhere_else { (b : ℕ) (n p i : ℕ) → i < part_length n b p
        → (p * b + i < n) × ((p * b + i) / b ≡ p) × ((p * b + i) % b ≡ i) }
{}

/// Another block (i, j) is the block there, and each other block is as it was.
pub fn one_block_is_written()
    ensures here { (f : BlockedGrid) (i j : ℕ) (g : Grid) → IsFlash f → IsBlock f i j
        → flash_block (with_block f i j g) i j ≡ g }
    ensures others { (f : BlockedGrid) (i j k l : ℕ) (g : Grid) → IsBlock f i j → IsBlock f k l
        → (k ≢ i) ⊎ (l ≢ j) → flash_block (with_block f i j g) k l ≡ flash_block f k l }
    ensures still { (f : BlockedGrid) (i j : ℕ) (g : Grid) → IsFlash f
        → IsFlash (with_block f i j g) }
{}
