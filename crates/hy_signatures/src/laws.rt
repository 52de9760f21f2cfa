// Laws of the definitions: functions that do nothing, whose contracts are the laws.
ghost use Rattle.std.specs.Bool.{Decides};
ghost use Rattle.std.specs.Prelude.{◌≡◌};
ghost use Rattle.hy_types.specs.Types.{PlainType};
ghost use Rattle.hy_signatures.specs.PlainTypes.{same_type};

/// The test whether two types are the same tells whether they are equal.
pub fn same_types_are_equal()
    ensures { (a b : PlainType) → Decides (same_type a b) (a ≡ b) }
{}
