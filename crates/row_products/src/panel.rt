ghost use Rattle.std.specs.Prelude.{◌≡◌, ℕ, ◌+◌, ◌*◌, ◌<◌, ◌≤◌, length, slice_index};

/// Lines of `height` numbers each, one behind the other. Of each line the numbers from `from` on are multiplied.
#[derive(Clone, Copy, Debug)]
pub struct Panel<'a> {
    /// The numbers of all lines.
    pub entries: &'a [u64],
    /// How many numbers a line has.
    pub height: usize,
    /// Which number of a line is multiplied by the first of a row.
    pub from: usize,
}

impl<'a> Panel<'a> {
    /// The first n numbers from `from` on of line j.
    #[inline(always)]
    pub fn line(self, j: usize, n: usize) -> &'a [u64]
        requires line { (j + 1) * self.height ≤ length self.entries.now }
        requires within { self.from + n ≤ self.height }
        ensures len { length result.now ≡ n }
        ensures entries { (k : ℕ) → k < n
            → slice_index result.now k
            ≡ slice_index self.entry.entries.now (j * self.entry.height + (self.entry.from + k)) }
    {
        let start = j * self.height + self.from;
        &self.entries[start..start + n]
    }
}
