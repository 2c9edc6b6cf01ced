/// What a certificate that counts says: the key that signed it, and the key that it names.
#[derive(Clone, Copy, Debug, PartialEq, Eq)]
pub struct Edge<K> {
    pub by: K,
    pub to: K,
}
