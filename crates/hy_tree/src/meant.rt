// What a name stands for.

/// What a name of a source stands for. A number is the `node` of the declaration; that of `Param` is a position, and that
/// of `Built` is the number of a predeclared name. `docs/NAMES.md` has the rules.
#[derive(Clone, Copy, Debug, PartialEq, Eq)]
pub enum Meant {
    /// No name, or one whose meaning needs types, as that of a member.
    Nothing,
    /// A variable or a bound projection (its statement), a parameter, or the new value of `set` (its variant).
    Local(u32),
    /// A field of the type of `self`.
    SelfField(u32),
    /// A function of the file.
    Fun(u32),
    /// A subscript of the file.
    Sub(u32),
    Product(u32),
    Trait(u32),
    /// The type parameter at this place, from 0, of the function around; in a trait, `Self` is 0.
    Param(u32),
    /// A predeclared name, by its number in `predeclared`.
    Built(u32),
}
