// A surface as one struct: its lent pixel bytes with its sides.
#![tactic(auto)]

#[derive(Drop)]
pub struct Surface<'a> {
    pub pixels: &'a mut [u8],
    pub width: u32,
    pub height: u32,
}
