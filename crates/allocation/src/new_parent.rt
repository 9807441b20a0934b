// What the parent of a new file says of it.

#[derive(Clone, Copy)]
pub struct NewParent<'a> {
    pub name: &'a [u8],
    pub date: &'a [u8],
    pub length: u32,
    pub attribute: u32,
}
