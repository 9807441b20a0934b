// What a volume is called, as a format is given it.

// The application's name, the volume's name and id, the owner's name and code, and the date of the format.
#[derive(Clone, Copy)]
pub struct Label<'a> {
    pub application: &'a [u8],
    pub volume: &'a [u8],
    pub id: u32,
    pub owner: &'a [u8],
    pub code: &'a [u8],
    pub date: &'a [u8],
}
