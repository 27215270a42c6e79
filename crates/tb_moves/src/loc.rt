// Where values stand.

ghost use Rattle.std.specs.Prelude.{◌≡◌};
ghost use Rattle.tb_moves.specs.declared.loc.Loc.TheVariants.{Reg};

/// A register, or a slot of the frame, by its number.
#[derive(Clone, Copy, Debug, PartialEq, Eq)]
pub enum Loc {
    Reg(u8),
    Slot(u16),
}

// What fills the free room of a list.
impl Default for Loc {
    ghost is_default = { λ l. l ≡ Reg 0 };

    fn default() -> Self {
        Loc::Reg(0)
    }
}
