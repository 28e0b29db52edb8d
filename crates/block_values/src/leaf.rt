/// What a block is a block of: the work matrix as it is stored, a known operand by its number, the solution X, or a
/// factor in the packed solution of Lu and Ldl.
#[derive(Clone, Copy, Debug, PartialEq, Eq)]
pub enum Leaf {
    Work,
    Known(u32),
    Solution,
    L,
    D,
    U,
}
