//! What the definitions of worksheets and of their texts say together: which texts spell a worksheet, that what is printed of a
//! worksheet spells it, and that a made worksheet, printed and read, is the made one and right.
#![tactic(auto)]

pub mod laws;
