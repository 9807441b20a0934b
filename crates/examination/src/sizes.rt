// The marks by which chains and files are examined: one for each index, 0 to 4,096. Tables of so many lie on the stack, since the project has no heap.
pub const MARKS: usize = 4097;
