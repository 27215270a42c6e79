//! Names and variables.
ghost use Rattle.std.specs.Prelude.{◌≡◌, map};
ghost use Rattle.tb_expand.specs.Names.{is_among as is_among_in, same_name as same_name_in};
ghost use Rattle.tb_expand.specs.View.{view_name};

/// A name as it stands in a text: 0 is the alias of a name as it was written.
#[derive(Clone, Copy, Debug)]
pub struct Name<'a> {
    pub text: &'a [u8],
    pub alias: u32,
}

/// A variable: the number of the scope that binds it, and its name.
#[derive(Clone, Copy, Debug)]
pub struct Variable<'a> {
    pub scope: usize,
    pub name: Name<'a>,
}

/// Whether two names are the same, alias and all.
#[tactic(auto, unfolding(crate::specs::Names::same_name))]
pub fn same_name(one: Name, other: Name) -> bool
    ensures { result ≡ same_name_in (view_name one.entry) (view_name other.entry) }
{
    one.text == other.text && one.alias == other.alias
}

/// Whether the name is one of these.
pub fn is_among(name: Name, names: &[Name]) -> bool
    ensures { result ≡ is_among_in (view_name name.entry) (map view_name names.now) }
{
    for other in names {
        if same_name(name, *other) {
            return true;
        }
    }
    false
}
