//! Where an expression stands.

/// Where an expression stands: whether in the library, in which scope, with how many levels of nodes left below the
/// limit, its own included, and whether a `letrec` or a definition of a body binds it.
#[derive(Clone, Copy, Debug)]
pub struct Context {
    pub library: bool,
    pub scope: usize,
    pub levels: usize,
    pub is_value: bool,
}
