/// A construct, and where it begins: the byte of the text at which its first token stands.
#[derive(Drop)]
pub struct At<T> {
    pub at: u32,
    pub node: T,
}
