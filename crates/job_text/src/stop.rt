/// Where the text of a job ends in an input. What stands behind it is the second part.
#[derive(Clone, Copy, Debug, PartialEq, Eq)]
pub enum Stop {
    /// At the end of the input.
    Nothing,
    /// Before the first line whose first word is `worksheet`, or at the end of the input.
    Worksheet,
    /// Before the first line whose first word is `after`, or at the end of the input.
    After,
}
